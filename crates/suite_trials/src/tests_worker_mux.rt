ghost use Rattle.std.specs.Prelude.{◌≤◌, IfSome, All};
ghost use Rattle.std.specs.List.{AllByRecursion};
ghost use Rattle.worker_mux.specs.Packets.{IsWhole};
ghost use Rattle.worker_mux.specs.Passes.{IsPassFor, IsTakerFor, IsFresh};

use std::alloc::Global;
use std::process::Abort;
use std::sync::Wait;
use std::test::Fail;
use std::thread;
use std::thread::Threads;
use sub_number::Bytes;
use trial_events::{file_event, spelled};
use worker_lane::{Ending, Lot};
use worker_mux::{Belt, LanePass, Taker};

// A packet with these bytes.
fn packet(alloc: Global, bytes: &[u8]) -> Option<Lot>
    ensures { IfSome result IsWhole }
{
    let packet = spelled(alloc, &file_event(alloc, b"", bytes)?)?;
    Some(Lot::Packet(Bytes::from_vec(packet)))
}

// The same, or an end where there is no memory.
fn packet_or_end(alloc: Global, bytes: &[u8]) -> Lot
    ensures { IsWhole result }
{
    match packet(alloc, bytes) {
        Some(lot) => lot,
        None => Lot::End(Ending::NoMemory),
    }
}

// Whether the lot is a packet with these bytes, behind which stand the four of its checksum.
fn is_packet(lot: &Lot, bytes: &[u8]) -> bool {
    match lot {
        Lot::Packet(packet) => {
            let packet = packet.bytes();
            packet.len() >= 4 && packet[..packet.len() - 4].ends_with(bytes)
        }
        Lot::End(_) => false,
    }
}

// The passes of lanes 0 and 1.
fn first_two(belt: &Belt, passes: Vec<LanePass>) -> Option<(LanePass, LanePass)>
    requires { AllByRecursion (IsFresh belt.now) passes.items }
    ensures { IfSome result (λ two. IsPassFor belt.now two.0 × IsPassFor belt.now two.1) }
{
    let _ = belt;
    let mut passes = passes.into_iter();
    let first = passes.next()?;
    let second = passes.next()?;
    Some((first, second))
}

fn puts<R: Wait>(rt: &R, belt: &Belt, pass: &mut LanePass, lot: Lot) -> bool
    requires pass { IsPassFor belt.now pass.old }
    requires packets { IsWhole lot }
    ensures { IsPassFor belt.now pass.new }
{
    belt.put(rt, pass, lot).is_ok()
}

// Whether the lot comes back, and is the same.
fn is_refused<R: Wait>(rt: &R, belt: &Belt, pass: &mut LanePass, status: i32) -> bool
    requires { IsPassFor belt.now pass.old }
    ensures { IsPassFor belt.now pass.new }
{
    match belt.put(rt, pass, Lot::End(Ending::Exit(status))) {
        Err(Lot::End(Ending::Exit(same))) => same == status,
        _ => false,
    }
}

fn takes_packet<R: Wait>(rt: &R, belt: &Belt, taker: &mut Taker, from: u32, bytes: &[u8]) -> bool
    requires { IsTakerFor belt.now taker.old }
    ensures { IsTakerFor belt.now taker.new }
{
    match belt.take(rt, taker) {
        Some((lane, lot)) => lane == from && is_packet(&lot, bytes),
        None => false,
    }
}

fn is_empty<R: Wait>(rt: &R, belt: &Belt, taker: &mut Taker) -> bool
    requires { IsTakerFor belt.now taker.old }
    ensures { IsTakerFor belt.now taker.new }
{
    belt.take(rt, taker).is_none()
}

// One lot is put, the next one finds no room; it is taken, and then there is none; the lane is settled.
fn goes_over<R: Wait + AllocGlobal>(
    rt: &R,
    belt: &Belt,
    taker: &mut Taker,
    two: (LanePass, LanePass),
) -> [bool; 5]
    requires taker { IsTakerFor belt.now taker.old }
    requires two { IsPassFor belt.now two.0 × IsPassFor belt.now two.1 }
{
    let (mut first, mut second) = two;
    let lot = packet_or_end(rt.alloc(), b"p");
    let put = puts(rt, belt, &mut first, lot);
    let refused = is_refused(rt, belt, &mut second, 3);
    let taken = takes_packet(rt, belt, taker, 0, b"p");
    let empty = is_empty(rt, belt, taker);
    belt.settle(rt, taker, first);
    [put, refused, taken, empty, is_empty(rt, belt, taker)]
}

// Whether all that holds of the two first lanes.
fn all_goes_over<R: Wait + AllocGlobal + Abort>(
    rt: &R,
    belt: &Belt,
    taker: &mut Taker,
    passes: Vec<LanePass>,
) -> Result<(), Fail>
    requires taker { IsTakerFor belt.now taker.old }
    requires passes { AllByRecursion (IsFresh belt.now) passes.items }
{
    let two = first_two(belt, passes).ok_or("no pass")?;
    assert_eq!(rt; goes_over(rt, belt, taker, two), [true; 5]);
    Ok(())
}

#[test]
fn a_full_belt_hands_the_lot_back_and_an_empty_one_gives_none(rt: HostRuntime) -> Result<(), Fail> {
    let (belt, mut taker, passes) = Belt::new(rt.alloc(), 2, 1).ok().ok_or("no memory")?;
    all_goes_over(&rt, &belt, &mut taker, passes)
}

// Puts a lot. Where the belt is full, another thread gets its turn first.
fn put_at_last<R: Wait>(rt: &R, belt: &Belt, pass: &mut LanePass, lot: Lot)
    requires pass { IsPassFor belt.now pass.old }
    requires packets { IsWhole lot }
    ensures { IsPassFor belt.now pass.new }
{
    let mut lot = lot;
    for _ in rt.forever() {
        match belt.put(rt, pass, lot) {
            Ok(()) => return,
            Err(same) => lot = same,
        }
        thread::yield_now();
    }
    unreachable!()
}

fn take_at_last<R: Wait>(rt: &R, belt: &Belt, taker: &mut Taker) -> (u32, Lot)
    requires { IsTakerFor belt.now taker.old }
    ensures { IsTakerFor belt.now taker.new }
{
    for _ in rt.forever() {
        if let Some(lot) = belt.take(rt, taker) {
            return lot;
        }
        thread::yield_now();
    }
    unreachable!()
}

// Puts packets that hold the numbers from 0 on.
fn put_all<R: Wait>(rt: &R, alloc: Global, belt: &Belt, mut pass: LanePass, count: u32) -> LanePass
    requires { IsPassFor belt.now pass }
    ensures { IsPassFor belt.now result }
{
    for number in 0..count {
        let lot = packet_or_end(alloc, number.to_be_bytes().as_slice());
        put_at_last(rt, belt, &mut pass, lot);
    }
    pass
}

fn is_next(next: &mut [u32], lane: u32, lot: &Lot) -> bool {
    let lane = lane as usize;
    if lane >= next.len() || !is_packet(lot, next[lane].to_be_bytes().as_slice()) {
        return false;
    }
    next[lane] = next[lane].wrapping_add(1);
    true
}

// Takes so many lots, and answers whether those of each lane hold the numbers from 0 on.
fn take_all<R: Wait>(rt: &R, belt: &Belt, mut taker: Taker, count: u32) -> (Taker, bool)
    requires { IsTakerFor belt.now taker }
    ensures { IsTakerFor belt.now result.0 }
{
    let mut next = [0u32; 64];
    let mut in_order = true;
    for _ in 0..count {
        let (lane, lot) = take_at_last(rt, belt, &mut taker);
        in_order = is_next(next.as_mut_slice(), lane, &lot) && in_order;
    }
    (taker, in_order)
}

fn put_each<R: Wait>(rt: &R, alloc: Global, belt: &Belt, passes: Vec<LanePass>, count: u32)
    requires { AllByRecursion (IsFresh belt.now) passes.items }
{
    for pass in passes {
        put_all(rt, alloc, belt, pass, count);
    }
}

// Puts 16 lots of each of 64 lanes.
fn fill<R: Wait + AllocGlobal + Abort>(rt: &R, belt: &Belt, passes: Vec<LanePass>)
    requires { AllByRecursion (IsFresh belt.now) passes.items }
{
    assert_eq!(rt; passes.len(), 64);
    put_each(rt, rt.alloc(), belt, passes, 16);
}

// Whether what was taken came in order, and nothing is left.
fn is_all_in_order<R: Wait + Abort>(rt: &R, belt: &Belt, taker: &mut Taker, in_order: bool)
    requires { IsTakerFor belt.now taker.old }
{
    assert!(rt; in_order);
    assert!(rt; is_empty(rt, belt, taker));
}

// Whether 1024 lots come in order, and then none.
fn come_in_order<R: Wait + Abort>(rt: &R, belt: &Belt, taker: Taker)
    requires { IsTakerFor belt.now taker }
{
    let (mut taker, in_order) = take_all(rt, belt, taker, 1024);
    is_all_in_order(rt, belt, &mut taker, in_order);
}

#[test]
fn sixty_four_lanes_fill_a_room_of_1024(rt: HostRuntime) -> Result<(), Fail> {
    let (belt, taker, passes) = Belt::new(rt.alloc(), 64, 1024).ok().ok_or("no memory")?;
    fill(&rt, &belt, passes);
    come_in_order(&rt, &belt, taker);
    Ok(())
}

// A thread for each lane puts.
fn put_by_threads<R: Threads + Wait + Sync>(
    rt: &R,
    alloc: Global,
    belt: &Belt,
    passes: Vec<LanePass>,
    each: u32,
) -> bool
    requires { All (IsPassFor belt.now) passes.items }
{
    thread::map_vec(
        rt,
        passes,
        &|pass: LanePass| -> LanePass
            requires { IsPassFor belt.now pass }
        { put_all(rt, alloc, belt, pass, each) },
    )
    .is_ok()
}

// The same, while this thread takes so many.
fn both_go_on<R: Threads + Wait + Sync>(
    rt: &R,
    alloc: Global,
    belt: &Belt,
    taker: Taker,
    passes: Vec<LanePass>,
    each: u32,
    count: u32,
) -> bool
    requires taker { IsTakerFor belt.now taker }
    requires passes { All (IsPassFor belt.now) passes.items }
{
    let (put, (mut taker, in_order)) = thread::join(
        rt,
        move || -> bool
            requires { All (IsPassFor belt.now) passes.items }
        { put_by_threads(rt, alloc, belt, passes, each) },
        move ||
            requires { IsTakerFor belt.now taker }
            ensures { IsTakerFor belt.entry.now result.0 }
        { take_all(rt, belt, taker, count) },
    );
    put && in_order && is_empty(rt, belt, &mut taker)
}

// A thread for each lane puts, and this one takes: nothing is lost, and the lots of each lane come in order.
fn goes_over_threads<R: Threads + Wait + Sync>(
    rt: &R,
    alloc: Global,
    lanes: u32,
    room: usize,
    each: u32,
) -> Option<bool>
    requires lanes { (1 ≤ lanes) × (lanes ≤ 64) }
    requires room { (1 ≤ room) × (room ≤ 1024) }
{
    let (belt, taker, passes) = Belt::new(alloc, lanes, room).ok()?;
    let count = each.wrapping_mul(lanes);
    Some(both_go_on(rt, alloc, &belt, taker, passes, each, count))
}

#[test]
fn no_lot_of_two_threads_is_lost_and_each_lanes_come_in_order(rt: HostRuntime) {
    for room in [1usize, 16, 1024] {
        let whole = goes_over_threads(&rt, rt.alloc(), 2, room, 50_000);
        assert_eq!(rt; whole, Some(true), "room {room}");
    }
}

#[test]
fn no_lot_of_four_threads_is_lost_and_each_lanes_come_in_order(rt: HostRuntime) {
    for room in [1usize, 16] {
        let whole = goes_over_threads(&rt, rt.alloc(), 4, room, 25_000);
        assert_eq!(rt; whole, Some(true), "room {room}");
    }
}
