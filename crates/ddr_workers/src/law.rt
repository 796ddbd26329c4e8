//! What the sides of a queue know of each other, which no code holds.
//!
//! A queue has several put sides, which push, and one take side, which pops. Each has a pass of the queue, and
//! a pass has a view: the lists that its side has put or taken so far. A view is plain data, and exists in
//! proofs alone. The rule in `specs/Law.antt` ties all views to what the queue holds; `S` is what a queue was
//! opened for, `T` what goes through it. Above stands `lane`.
use std::collections::LinkedList;

/// What a put side knows.
pub struct Putting<S, T> {
    /// What the queue was opened for.
    pub purpose: S,
    /// How many put sides it was opened for.
    pub sides: u64,
    /// Which of the put sides it is, counted from 0.
    pub source: u64,
    /// What it has put so far, in order.
    pub put: LinkedList<T>,
    /// How many of its pushes found the queue full.
    pub full: u64,
}

/// What the take side knows.
pub struct Taking<S, T> {
    /// What the queue was opened for.
    pub purpose: S,
    /// How many put sides it was opened for.
    pub sides: u64,
    /// How many of them were made.
    pub count: u64,
    /// What it has taken so far, in order.
    pub took: LinkedList<T>,
    /// What each put side that came back had put, from side 0 up.
    pub back: LinkedList<LinkedList<T>>,
    /// How many of its pops found the queue empty.
    pub empty: u64,
}

/// The view of a pass.
pub enum View<S, T> {
    /// Of the first pass, before the queue is told what it is for.
    Unset,
    Put(Putting<S, T>),
    Take(Taking<S, T>),
    /// Of a pass that has no side any more.
    Gone,
}
