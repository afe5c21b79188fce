//! How fast the store allocates, compares and collects: `bench_store LENGTH` makes two lists of that length.
//!
//! What was done goes to standard output; how fast, which differs from run to run, to standard error.

#![tactic(auto)]

use anyhow::anyhow;
use std::env;
use std::num::nearest_u64_to_f64;
use std::time::Instant;
use store::{Cells, FIRST_NODE, Full, Heap, Slot, collect, read_slot, write_slot};

// The store knows no kinds but leaves and nodes: these are numbers that values have too, and nothing rests on that.
const NUMBER: u32 = 0;

const NIL: u32 = 2;

const PAIR: u32 = FIRST_NODE;

const DEFAULT_LENGTH: u32 = 1_000_000;
/// The words of two cells, one for each list.
const WORDS: usize = 12;

fn main(rt: HostRuntime) -> anyhow::Result<()> {
    run(&rt)
}

fn run(rt: &HostRuntime) -> anyhow::Result<()> {
    let length = match env::args(rt)?.nth(1) {
        Some(text) => text.parse::<u32>()?,
        None => DEFAULT_LENGTH,
    };
    let mut words = vec![in rt.alloc(); 0; WORDS * length as usize]?;
    let mut other = vec![in rt.alloc(); 0; WORDS * length as usize]?;
    let mut roots = [0; 6];
    let mut heap = Heap {
        words: &mut words,
        used: 0,
    };
    allocate(rt, &mut heap, &mut roots, length)?;
    compare(rt, &heap, &roots, length)?;
    copy(rt, &words, &mut other, &mut roots)
}

/// Makes the two lists, and puts them into the roots.
fn allocate(
    rt: &HostRuntime,
    heap: &mut Heap<'_>,
    roots: &mut [u32],
    length: u32,
) -> anyhow::Result<()> {
    let start = Instant::now(rt)?;
    let one = list(heap, length).map_err(|_| anyhow!("no room for the first list"))?;
    let two = list(heap, length).map_err(|_| anyhow!("no room for the second list"))?;
    let used = heap.used;
    report(rt, start, "allocated", used)?;
    let _ = write_slot(roots, 0, one);
    let _ = write_slot(roots, 1, two);
    Ok(println!(rt; "allocated {used} cells, {} words", 6 * used as u128)?)
}

/// The list of the numbers below `length`, the last first.
fn list(heap: &mut Heap<'_>, length: u32) -> Result<Slot, Full> {
    let mut all = leaf(NIL, 0);
    for i in 0..length {
        // No `?`: with it a cell takes four instructions more, and a tenth more time.
        match heap.put(PAIR, leaf(NUMBER, i), all) {
            Ok(node) => all = node,
            Err(full) => return Err(full),
        }
    }
    Ok(all)
}

fn leaf(kind: u32, low: u32) -> Slot {
    Slot { kind, low, high: 0 }
}

/// Compares the two lists, which are the same.
fn compare(rt: &HostRuntime, heap: &Heap<'_>, roots: &[u32], length: u32) -> anyhow::Result<()> {
    let start = Instant::now(rt)?;
    let one = read_slot(roots, 0);
    let two = read_slot(roots, 1);
    let same = heap
        .equal(one, two, &mut [0; 6], length as usize)
        .map_err(|_| anyhow!("no room for the comparison"))?;
    report(rt, start, "compared", length as usize)?;
    Ok(println!(rt; "compared {length} cells with as many: {same}")?)
}

/// Copies the two lists to the other memory.
fn copy(
    rt: &HostRuntime,
    words: &[u32],
    other: &mut [u32],
    roots: &mut [u32],
) -> anyhow::Result<()> {
    let start = Instant::now(rt)?;
    let used = collect(words, other, roots).map_err(|_| anyhow!("no room for the copies"))?;
    report(rt, start, "collected", used)?;
    Ok(println!(rt; "collected {used} cells, {} words", 6 * used as u128)?)
}

/// Says how many million cells in a second that was.
fn report(rt: &HostRuntime, start: Instant, what: &str, cells: usize) -> anyhow::Result<()> {
    let seconds = start.elapsed(rt)?.as_secs_f64();
    let rate = nearest_u64_to_f64(cells as u64) / seconds / 1e6;
    Ok(eprintln!(rt; "{what} {cells} cells in {seconds:.6} s: {rate:.1} million cells a second")?)
}
