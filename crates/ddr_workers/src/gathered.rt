//! The sides of several queues, gathered from those who held one side of each.
//!
//! Below stands `rows`, and above stands `closing`.
ghost use Rattle.std.specs.Prelude.{◌≡◌, ◌<◌, IfOk, length};
ghost use Rattle.ddr_workers.specs.Gathered.{nothing_of, with_one};
ghost use Rattle.ddr_workers.specs.Lanes.{lists};

use crate::rows::{add_to_each, rows_with_room};
use std::alloc::{AllocError, Global};
use std::marker::Model;

/// Of each queue of one kind the put sides, and the take sides of the queues of the other kind. Room is made for all of
/// them at first.
#[derive(Drop)]
pub struct Gathered<P, T> {
    puts: Vec<Vec<P>>,
    takes: Vec<T>,
}

impl<P, T> Model for Gathered<P, T> {
    ghost use Rattle.ddr_workers.specs.Gathered.{Gathering};

    ghost Value = { Gathering P T };

    ghost use Rattle.ddr_workers.specs.Gathered.{gathering, HasRoom};

    ghost view = { gathering };

    ghost invariant = { HasRoom };
}

impl<P: Drop, T: Drop> Gathered<P, T> {
    /// Nothing yet, with room for what so many holders have, who hold a side of so many queues each.
    pub fn open(alloc: Global, holders: usize, queues: usize) -> Result<Gathered<P, T>, AllocError>
        ensures { IfOk result (λ g. g ≡ nothing_of holders queues) }
    {
        Ok(Gathered {
            puts: rows_with_room(alloc, queues, holders)?,
            takes: Vec::with_capacity(alloc, holders)?,
        })
    }

    /// Adds what one holder has: a put side for each queue, and a take side.
    pub fn add(&mut self, puts: Vec<P>, take: T)
        requires room { 0 < self.old.spare }
        requires each { length puts.items ≡ length self.old.puts }
        ensures { self.new ≡ with_one self.old puts.items take }
    {
        add_to_each(&mut self.puts, puts);
        self.takes.push_reserved(take);
    }

    /// The put sides, queue by queue, and the take sides.
    pub fn into_sides(self) -> (Vec<Vec<P>>, Vec<T>)
        ensures puts { lists result.0.items ≡ self.puts }
        ensures takes { result.1.items ≡ self.takes }
    {
        let Gathered { puts, takes } = self;
        (puts, takes)
    }
}
