use super::{ABC, names, text, try_written};
use sim_records::{ToWriter, write_finals};
use sqs_message::{MessageId, Origin, Place, Text};
use sqs_model::{
    FinalMessage, FinalMessages, FinalTask, FinalTasks, FinalTransfer, FinalTransfers, Finals,
    TransferKind,
};
use sqs_redrive::TaskStatus;
use std::alloc::Global;
use std::process::Abort;

/// The finals of nothing.
fn nothing(alloc: Global) -> Finals {
    Finals {
        messages: FinalMessages::new(Vec::new(alloc)),
        transfers: FinalTransfers::new(Vec::new(alloc)),
        tasks: FinalTasks::new(Vec::new(alloc)),
    }
}

fn message(number: u64, place: Place, due: Option<u64>, group: Option<Text>) -> FinalMessage {
    FinalMessage {
        id: MessageId { site: 0, number },
        origin: Origin { site: 1, number: 8 },
        place,
        due,
        enqueued: 1000,
        receives: 2,
        group,
        md5: ABC,
    }
}

fn transfer(kind: TransferKind, number: u64, origin: Option<Origin>) -> FinalTransfer {
    FinalTransfer {
        from: 0,
        to: 1,
        kind,
        due: 1200,
        number,
        message: MessageId { site: 0, number: 6 },
        origin,
        md5: ABC,
    }
}

fn task(status: TaskStatus, moved: u64) -> FinalTask {
    FinalTask {
        task: 3,
        status,
        moved,
    }
}

/// Compares what is written of finals.
fn try_finals(rt: &impl Abort, alloc: Global, finals: &Finals, text: &[u8]) {
    let mut out = ToWriter::new(Vec::new(alloc));
    let answer = write_finals(alloc, &mut out, finals, &names(rt, alloc));
    try_written(rt, &out, answer, text);
}

#[test]
fn of_nothing_the_headers_stand(rt: HostRuntime) {
    let text =
        b"final,queue,message,origin,place,due,enqueued,receives,group,md5\ntransfer,from,to,kind,due,number,message,origin,md5\ntask,name,status,moved\n";
    try_finals(&rt, rt.alloc(), &nothing(rt.alloc()), text);
}

/// A message in each state, the first with all that it may have.
fn messages(rt: &impl Abort, alloc: Global) -> FinalMessages {
    let group = text(rt, alloc, b"g");
    let messages = vec![in alloc;
        message(3, Place::Delayed, Some(5000), Some(group)),
        message(0, Place::Visible, None, None),
        message(1, Place::InFlight, Some(9), None),
    ];
    FinalMessages::new(messages.expect(rt, "memory"))
}

/// A transfer of each kind.
fn transfers(rt: &impl Abort, alloc: Global) -> FinalTransfers {
    let origin = Origin { site: 0, number: 6 };
    let transfers = vec![in alloc;
        transfer(TransferKind::Redrive, 0, Some(origin)),
        transfer(TransferKind::Forward, 4, None),
        transfer(TransferKind::Move, 1, None),
    ];
    FinalTransfers::new(transfers.expect(rt, "memory"))
}

/// A task of each status.
fn tasks(rt: &impl Abort, alloc: Global) -> FinalTasks {
    let tasks = vec![in alloc;
        task(TaskStatus::Running, 12),
        task(TaskStatus::Idle, 0),
        task(TaskStatus::Running, 0),
        task(TaskStatus::Completed, 0),
        task(TaskStatus::Cancelled, 0),
        task(TaskStatus::Failed, 0),
    ];
    FinalTasks::new(tasks.expect(rt, "memory"))
}

#[test]
fn each_place_kind_and_status(rt: HostRuntime) {
    let finals = Finals {
        messages: messages(&rt, rt.alloc()),
        transfers: transfers(&rt, rt.alloc()),
        tasks: tasks(&rt, rt.alloc()),
    };
    let text = b"\
final,queue,message,origin,place,due,enqueued,receives,group,md5
final,q,m-0-3,o-1-8,delayed,5000,1000,2,g,900150983cd24fb0d6963f7d28e17f72
final,q,m-0-0,o-1-8,visible,,1000,2,,900150983cd24fb0d6963f7d28e17f72
final,q,m-0-1,o-1-8,inflight,9,1000,2,,900150983cd24fb0d6963f7d28e17f72
transfer,from,to,kind,due,number,message,origin,md5
transfer,q,d,redrive,1200,0,m-0-6,o-0-6,900150983cd24fb0d6963f7d28e17f72
transfer,q,d,forward,1200,4,m-0-6,,900150983cd24fb0d6963f7d28e17f72
transfer,q,d,move,1200,1,m-0-6,,900150983cd24fb0d6963f7d28e17f72
task,name,status,moved
task,t,Running,12
task,t,Idle,0
task,t,Running,0
task,t,Completed,0
task,t,Cancelled,0
task,t,Failed,0
";
    try_finals(&rt, rt.alloc(), &finals, text);
}
