use super::*;
use crate::world::{TWO_INSTANCES, does_all, read};
use std::thread;

// Watches the board until two batches were read, and gives up in the end: what it read, its first two registers, and how many
// batches it was told of.
type Seen = ([Option<(u32, u32)>; 2], [Option<u64>; 2], usize);

fn watch(alloc: Global, board: &Board) -> Result<Seen, AllocError> {
    let mut watcher = Watcher::new(alloc, board)?;
    let mut batches = [None; 2];
    for _ in 0..10_000_000u32 {
        let place = watcher.read();
        if place >= 2 {
            break;
        }
        batches[place] = read(watcher.next(board));
    }
    let registers = [watcher.table().get(0), watcher.table().get(1)];
    Ok((batches, registers, watcher.told()))
}

fn post_all(board: &Board, mut world: World, steps: &[Step]) -> bool {
    does_all(&mut world, board, steps)
}

// What a watcher comes to while another thread does these steps, and whether all were done.
fn watched<R: Threads>(
    rt: &R,
    alloc: Global,
    steps: &[Step],
) -> Option<(Result<Seen, AllocError>, bool)> {
    let (world, board) = after(alloc, 1, &[])?;
    let shared = &board;
    Some(thread::join(
        rt,
        move || watch(alloc, shared),
        move || post_all(shared, world, steps),
    ))
}

#[test]
fn a_watcher_reads_what_another_thread_posts(rt: HostRuntime) -> Result<(), Fail> {
    let (seen, posted) = watched(&rt, rt.alloc(), &TWO_INSTANCES).ok_or("a world")?;
    assert!(rt; posted);
    assert_eq!(rt; seen?, ([Some((1, 2)), Some((2, 1))], [Some(5); 2], 0));
    Ok(())
}
