//! The tests; a line of 3n words has room for n numbers.

use crate::rotate;
use queue::Queue;
use store::Full;

/// The largest number that a worker can have.
const LAST: u64 = 18_446_744_073_709_551_615;

#[test]
fn rounds_are_served_in_order(rt: HostRuntime) {
    let mut one = [0; 9];
    let mut two = [0; 9];
    let mut queue = Queue::new(&mut one, &mut two);
    assert!(rt; queue.is_empty());
    assert_eq!(rt; queue.push(7), Ok(()));
    assert_eq!(rt; queue.push(LAST), Ok(()));
    assert_eq!(rt; queue.pop(), None, "the next round has not begun");
    queue.turn();
    assert_eq!(rt; queue.first(), Some(7));
    assert_eq!(rt; queue.pop(), Some(7));
    assert_eq!(rt; queue.push(9), Ok(()));
    queue.turn();
    assert_eq!(rt;
        queue.pop(),
        Some(LAST),
        "a round that has not ended goes on"
    );
    assert_eq!(rt; queue.pop(), None);
    queue.turn();
    assert_eq!(rt; queue.pop(), Some(9));
    assert!(rt; queue.is_empty());
}

#[test]
fn a_line_is_full_at_its_last_slot(rt: HostRuntime) {
    let mut one = [0; 3];
    let mut two = [0; 8];
    let mut queue = Queue::new(&mut one, &mut two);
    assert_eq!(rt; queue.push(1), Ok(()));
    assert_eq!(rt; queue.push(2), Ok(()));
    assert_eq!(rt; queue.push(3), Err(Full), "one word too few");
    assert_eq!(rt; queue.len(), 2);
    queue.turn();
    assert_eq!(rt;
        queue.push(4),
        Ok(()),
        "the other line, which has room for one"
    );
    assert_eq!(rt; queue.push(5), Err(Full));
    assert_eq!(rt; queue.len(), 3);
}

#[test]
fn the_front_goes_to_the_end(rt: HostRuntime) {
    let mut one = [0; 6];
    let mut two = [0; 6];
    let mut queue = Queue::new(&mut one, &mut two);
    assert_eq!(rt; queue.push(1), Ok(()));
    assert_eq!(rt; queue.push(2), Ok(()));
    assert_eq!(rt; rotate(&mut queue), Ok(()), "the end of the round");
    assert_eq!(rt; rotate(&mut queue), Ok(()));
    assert_eq!(rt; queue.first(), Some(2));
    assert_eq!(rt; rotate(&mut queue), Ok(()));
    assert_eq!(rt; queue.first(), None);
}
