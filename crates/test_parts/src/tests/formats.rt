//! The tasks of a queue.
use crate::tests::same::same;
use sqs_formats::{Home, HomeTask, HomeTasks};
use sqs_message::Text;
use std::alloc::{AllocError, Global};

fn tasks(alloc: Global) -> Result<HomeTasks, AllocError> {
    let name = Text::new(b"k".to_vec(alloc)?);
    Ok(HomeTasks::new(vec![in alloc; HomeTask { name, number: 6 }]?))
}

#[test]
fn a_home_knows_its_tasks(rt: HostRuntime) {
    let home = Home {
        is_fifo: true,
        tasks: tasks(rt.alloc()).expect(&rt, "memory"),
    };
    let tasks = home.tasks.as_slice();
    same(&rt, tasks.len(), 1);
    for task in tasks {
        same(
            &rt,
            (task.number, task.name.as_bytes()),
            (6, b"k".as_slice()),
        );
    }
}
