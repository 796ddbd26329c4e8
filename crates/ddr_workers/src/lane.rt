//! A queue that leads from several put sides to one take side, which go to threads of their own.
//!
//! `put` and `take` are the sides; `steps` has the queue's rule and its kinds of step; `joining` ends a queue. Below
//! stands `law`, which says what the sides know of each other. Above stand `requests` and `completions`, which say
//! by `Carries` what goes through their queues.
ghost use Rattle.std.specs.Prelude.{◌<◌, [], IfOk};
ghost use Rattle.ddr_workers.specs.Sides.{AreOpened, AreSides, IsLeft};

use crate::error::OpenError;
use std::alloc::Global;
use std::marker::Brand;
use std::sync::{Arc, Wait};
use steps::{Lane, LaneQueue, NextSide, set_purpose};

mod joining;
mod put;
mod steps;
mod take;

pub use put::LanePut;
pub use steps::Carries;
pub use take::LaneTake;

/// Opens a queue of so many put sides, which holds at most `capacity` items.
pub fn open<S: Copy + Drop, T: Drop, K: Carries<S, T>>(
    alloc: Global,
    purpose: S,
    capacity: u32,
    count: u32,
) -> Result<(Vec<LanePut<S, T, K>>, LaneTake<S, T, K>), OpenError>
    requires capacity { 0 < capacity }
    requires nothing { K.proper purpose [] }
    ensures { IfOk result (λ sides. AreOpened purpose capacity count sides.0.items sides.1) }
{
    let spare = Vec::with_capacity(alloc, capacity as usize)?;
    let mut puts = Vec::with_capacity(alloc, count as usize)?;
    let (queue, pass) = LaneQueue::<S, T, K>::ruled(alloc, capacity as usize)?;
    let mut pass = set_purpose::<S, T, K, Brand>(&queue, pass, purpose, count);
    let lane = Arc::new(alloc, Lane { queue, purpose })?;
    for source in 0..count {
        puts.push_reserved(LanePut {
            lane: Arc::try_clone(&lane)?,
            pass: lane.queue.another::<NextSide>(&mut pass),
            source,
        });
    }
    Ok((puts, LaneTake { lane, pass, spare }))
}

/// Ends the queue, of which all sides come back, and gives what it still holds, the oldest first.
pub fn join<S: Copy + Drop, T: Drop, K: Carries<S, T>, R: Wait>(
    rt: &R,
    puts: Vec<LanePut<S, T, K>>,
    take: LaneTake<S, T, K>,
) -> Vec<T>
    requires { AreSides puts.items take }
    ensures { IsLeft K.source K.proper puts.items take result.items }
{
    let LaneTake {
        lane,
        mut pass,
        spare,
    } = take;
    joining::give_back(&lane.queue, &mut pass, puts);
    joining::take_left(rt, &lane.queue, &mut pass, spare)
}
