//! Rows to which elements are added, one to each at a time, in room that is made at first.
//!
//! Above stand `system`, which hands the sides of queues out, and `gathered`, which takes them in.
ghost use Rattle.std.specs.Prelude.{◌≡◌, ◌<◌, [], All, IfOk, length, map, replicate, vec_capacity, vec_len};
ghost use Rattle.ddr_workers.specs.Lanes.{each_with, lists};

use std::alloc::{AllocError, Global};

/// Empty rows with room for so many.
pub fn rows_with_room<T: Drop>(
    alloc: Global,
    count: usize,
    room: usize,
) -> Result<Vec<Vec<T>>, AllocError>
    ensures empty { IfOk result (λ rows. lists rows.items ≡ replicate count []) }
    ensures room { IfOk result (λ rows. map vec_capacity rows.items ≡ replicate count room) }
{
    let mut rows = Vec::with_capacity(alloc, count)?;
    for _ in 0..count {
        rows.push_reserved(Vec::with_capacity(alloc, room)?);
    }
    Ok(rows)
}

/// Adds to each row the item of its place. There is room for it.
pub fn add_to_each<T: Drop>(rows: &mut Vec<Vec<T>>, mut items: Vec<T>)
    requires each { length items.items ≡ length rows.old.items }
    requires room { All (λ row. vec_len row < vec_capacity row) rows.old.items }
    ensures added { lists rows.new.items ≡ each_with (lists rows.old.items) items.items }
    ensures room { map vec_capacity rows.new.items ≡ map vec_capacity rows.old.items }
{
    for place in 0..rows.len() {
        let item = items.remove(0);
        let row = &mut rows[place];
        row.push_reserved(item);
    }
}
