//! A gather, two tasks that wait for each other, a future of no task, and a task that doesn't wait.
use std::test::Fail;
use task_edges::{Edge, Waiting, Waits, waits_of};

/// Both tasks of the gather complete it, and it wakes the first task; each of them wakes the other one.
const EDGES: [Edge; 6] = [
    Edge {
        from: 0x20,
        to: 0x100,
    },
    Edge {
        from: 0x30,
        to: 0x100,
    },
    Edge {
        from: 0x100,
        to: 0x10,
    },
    Edge {
        from: 0x30,
        to: 0x20,
    },
    Edge {
        from: 0x20,
        to: 0x30,
    },
    Edge {
        from: 0x200,
        to: 0x40,
    },
];

const WAITING: [Waiting; 5] = [
    Waiting {
        task: 0x10,
        waiter: Some(0x100),
    },
    Waiting {
        task: 0x20,
        waiter: Some(0x30),
    },
    Waiting {
        task: 0x30,
        waiter: Some(0x20),
    },
    Waiting {
        task: 0x40,
        waiter: Some(0x200),
    },
    Waiting {
        task: 0x50,
        waiter: None,
    },
];

fn is(waits: &Waits, wanted: &[u64]) -> bool {
    match waits {
        Waits::Tasks(list) => list.as_slice() == wanted,
        Waits::TooMany => false,
    }
}

fn is_too_many(waits: &Waits) -> bool {
    match waits {
        Waits::Tasks(_) => false,
        Waits::TooMany => true,
    }
}

#[test]
fn tasks_wait_for_tasks(rt: HostRuntime) -> Result<(), Fail> {
    let all = waits_of(rt.alloc(), &EDGES, &WAITING, 3)?;
    assert!(rt; all.len() == 5);
    assert!(rt; is(&all[0], &[0x20, 0x30]));
    assert!(rt; is(&all[1], &[0x30]));
    assert!(rt; is(&all[2], &[0x20]));
    assert!(rt; is(&all[3], &[]));
    assert!(rt; is(&all[4], &[]));
    Ok(())
}

#[test]
fn a_limit_is_told(rt: HostRuntime) -> Result<(), Fail> {
    let all = waits_of(rt.alloc(), &EDGES, &WAITING, 2)?;
    assert!(rt; all.len() == 5);
    assert!(rt; is_too_many(&all[0]));
    assert!(rt; is(&all[1], &[0x30]));
    Ok(())
}
