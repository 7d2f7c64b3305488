// The queue, on a row worked out by hand.

use clause_queue::{Choice, Queue};

#[test]
fn picks_by_weight_and_by_age(rt: HostRuntime) {
    let mut queue = Queue::new(rt.alloc()).expect(&rt, "memory");
    assert!(rt; queue.reserve(3).is_ok());
    assert!(rt; queue.push(0, 5).is_ok());
    assert!(rt; queue.push(1, 3).is_ok());
    assert!(rt; queue.push(2, 3).is_ok());
    assert_eq!(rt; queue.pick(Choice::Light), Some(1));
    assert_eq!(rt; queue.pick(Choice::Old), Some(0));
    assert!(rt; !queue.remove(0));
    assert_eq!(rt; queue.pick(Choice::Light), Some(2));
    assert_eq!(rt; queue.pick(Choice::Light), None);
}
