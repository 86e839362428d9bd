//! Entries that are due at a site, handled one by one: at least one of each class, with its
//! effects, worked out by hand.
ghost use Rattle.std.specs.Prelude.{IfOk};
ghost use Rattle.sqs_model.specs.Progress.{AreTimely};

use crate::tests::machines::{copies, of_version_3};
use sim_clock::{Class, Key, Refusal};
use sim_engine::Effects;
use sim_partition::Partition;
use sim_records::{Names, ToWriter, write_rows};
use sim_scenario::Scenario;
use sim_site::Site;
use sqs_message::{Body, MessageId, Origin, Row, Text};
use sqs_model::MOST_COUNT;
use sqs_redrive::{Load, Outbound};
use sqs_rehearsal::open_world;
use std::alloc::{AllocError, Global};

/// When a transfer arrives, its sender, its number and the queue that receives it.
type Arrives = (u64, u32, u64, u32);

/// The handling of an entry: the parts of its key, the lines of the log, and what is sent.
type Handled<'a> = ((u64, u32, Class, u64), &'a [u8], &'a [Arrives]);

/// The sites of a scenario, in one partition, with these transfers on their way.
fn in_one(
    alloc: Global,
    scenario: Scenario,
    transfers: Vec<Outbound>,
) -> Result<Partition<Site>, Refusal>
    requires { AreTimely transfers.items }
{
    let world = open_world(alloc, scenario)?;
    let mut partition = Partition::new(alloc, world.sites)?;
    partition.deliver(transfers)?;
    Ok(partition)
}

/// The same for a text, and the names of all agents.
fn opened(alloc: Global, text: &[u8], transfers: Vec<Outbound>) -> Option<(Partition<Site>, Names)>
    requires { AreTimely transfers.items }
{
    let scenario = of_version_3(alloc, text)?;
    let names = Names::new(copies(alloc, scenario.names()).ok()?);
    let partition = in_one(alloc, scenario, transfers).ok()?;
    Some((partition, names))
}

/// Handles the next entry due: its key, and what it makes.
fn handle_next(partition: &mut Partition<Site>) -> Option<(Key, Effects<Row, Outbound>)> {
    let key = partition.least_due()?;
    if key.at > MOST_COUNT {
        return None;
    }
    let made = partition.step().ok()?;
    Some((key, made))
}

/// The lines of the log for rows.
fn lines_of(alloc: Global, rows: &[Row], names: &Names) -> Option<Vec<u8>> {
    let mut out = ToWriter::new(Vec::new(alloc));
    write_rows(alloc, &mut out, rows, names).ok()?;
    Some(out.into_inner())
}

/// Whether these transfers are sent.
fn are_sent(sent: &[Outbound], wanted: &[Arrives]) -> bool {
    if sent.len() != wanted.len() {
        return false;
    }
    for (transfer, arrives) in sent.iter().zip(wanted) {
        if (transfer.at, transfer.sender, transfer.number, transfer.to) != *arrives {
            return false;
        }
    }
    true
}

/// Whether a handling is the expected one.
fn is_wanted(
    alloc: Global,
    names: &Names,
    key: Key,
    made: &Effects<Row, Outbound>,
    wanted: &Handled<'_>,
) -> bool {
    match lines_of(alloc, made.rows.as_slice(), names) {
        Some(lines) => {
            (key.at, key.agent, key.class, key.number) == wanted.0
                && lines.as_slice() == wanted.1
                && are_sent(made.sent.as_slice(), wanted.2)
        }
        None => false,
    }
}

/// Whether these entries are handled first, one after another.
fn handles(
    alloc: Global,
    partition: &mut Partition<Site>,
    names: &Names,
    wanted: &[Handled<'_>],
) -> bool {
    for handled in wanted {
        match handle_next(partition) {
            Some((key, made)) if is_wanted(alloc, names, key, &made, handled) => {}
            _ => return false,
        }
    }
    true
}

/// Whether these entries of a scenario are handled first, if these transfers are on their way.
fn tells_after(alloc: Global, text: &[u8], transfers: Vec<Outbound>, wanted: &[Handled<'_>]) -> bool
    requires { AreTimely transfers.items }
{
    match opened(alloc, text, transfers) {
        Some((mut partition, names)) => handles(alloc, &mut partition, &names, wanted),
        None => false,
    }
}

/// The same if none is on its way.
fn tells(alloc: Global, text: &[u8], wanted: &[Handled<'_>]) -> bool {
    tells_after(alloc, text, Vec::new(alloc), wanted)
}

#[test]
fn wake_release_sample_and_expiry(rt: HostRuntime) {
    let text =
        b"version = 1\nhorizon = 100000\nsample = 30000\n[[queue]]\nname = 'q'\nretention_s = 60\n[[actor]]\nname = 's'\nkind = 'script'\nqueue = 'q'\ncalls = '''\nat,call,body,group,id,delay,receipt,max,wait,timeout,task\n0,send,abc,,,1,,,,,\n'''\n";
    let wanted: [Handled<'_>; 5] = [
        (
            (0, 1, Class::Wake, 0),
            b"0,q,s,send,new,m-0-0,,900150983cd24fb0d6963f7d28e17f72\n",
            &[],
        ),
        (
            (1000, 0, Class::Release, 0),
            b"1000,q,q,release,visible,m-0-0,,\n",
            &[],
        ),
        (
            (30000, 0, Class::Sample, 0),
            b"30000,q,q,sample,ok,,,1/0/0\n",
            &[],
        ),
        (
            (60000, 0, Class::Expiry, 0),
            b"60000,q,q,expire,expired,m-0-0,,60000\n",
            &[],
        ),
        (
            (60000, 0, Class::Sample, 1),
            b"60000,q,q,sample,ok,,,0/0/0\n",
            &[],
        ),
    ];
    assert!(rt; tells(rt.alloc(), text, &wanted));
}

#[test]
fn release_to_the_dead_letter_queue(rt: HostRuntime) {
    let text =
        b"version = 1\nhorizon = 5000\n[[queue]]\nname = 'd'\n[[queue]]\nname = 'q'\nvisibility_s = 1\ndead_letter = 'd'\nmax_receives = 1\nlatency_ms = 500\n[[actor]]\nname = 's'\nkind = 'script'\nqueue = 'q'\ncalls = '''\nat,call,body,group,id,delay,receipt,max,wait,timeout,task\n0,send,abc,,,,,,,,\n100,receive,,,,,,,,,\n'''\n";
    let wanted: [Handled<'_>; 3] = [
        (
            (0, 2, Class::Wake, 0),
            b"0,q,s,send,new,m-1-0,,900150983cd24fb0d6963f7d28e17f72\n",
            &[],
        ),
        (
            (100, 2, Class::Wake, 1),
            b"100,q,s,receive,ok,m-1-0,r-1-0-1,o-1-0\n",
            &[],
        ),
        (
            (1100, 1, Class::Release, 0),
            b"1100,q,q,redrive,out,m-1-0,,d\n",
            &[(1600, 1, 0, 0)],
        ),
    ];
    assert!(rt; tells(rt.alloc(), text, &wanted));
}

#[test]
fn end_of_a_poll(rt: HostRuntime) {
    let text =
        b"version = 1\nhorizon = 5000\n[[queue]]\nname = 'q'\n[[actor]]\nname = 's'\nkind = 'script'\nqueue = 'q'\ncalls = '''\nat,call,body,group,id,delay,receipt,max,wait,timeout,task\n100,receive,,,,,,,1,,\n'''\n";
    let wanted: [Handled<'_>; 2] = [
        ((100, 1, Class::Wake, 0), b"100,q,s,receive,wait,,,\n", &[]),
        (
            (1100, 1, Class::PollEnd, 0),
            b"1100,q,s,receive,empty,,,\n",
            &[],
        ),
    ];
    assert!(rt; tells(rt.alloc(), text, &wanted));
}

#[test]
fn step_of_a_task(rt: HostRuntime) {
    let text =
        b"version = 1\nhorizon = 5000\n[[queue]]\nname = 'q'\ndead_letter = 'd'\nmax_receives = 1\nlatency_ms = 5\n[[queue]]\nname = 'd'\n[[actor]]\nname = 's'\nkind = 'script'\nqueue = 'd'\ncalls = '''\nat,call,body,group,id,delay,receipt,max,wait,timeout,task\n0,send,abc,,,,,,,,\n100,start,,,,,,,,,k\n'''\n[[task]]\nname = 'k'\nqueue = 'd'\nto = 'q'\nper_second = 3\nlatency_ms = 100\n";
    let wanted: [Handled<'_>; 3] = [
        (
            (0, 2, Class::Wake, 0),
            b"0,d,s,send,new,m-1-0,,900150983cd24fb0d6963f7d28e17f72\n",
            &[],
        ),
        ((100, 2, Class::Wake, 1), b"100,d,s,start,ok,,,k\n", &[]),
        (
            (1100, 3, Class::Step, 0),
            b"1100,d,k,move,out,m-1-0,,q\n1100,d,k,task,Completed,,,1\n",
            &[(1200, 3, 0, 0)],
        ),
    ];
    assert!(rt; tells(rt.alloc(), text, &wanted));
}

/// A dead letter of queue 0, enqueued at 10, that arrives at queue 1 at 40.
fn dead_letter(alloc: Global) -> Result<Vec<Outbound>, AllocError>
    ensures { IfOk result (λ transfers. AreTimely transfers.items) }
{
    let body = b"abc".to_vec(alloc)?;
    let load = Load::Redrive {
        id: MessageId { site: 0, number: 3 },
        origin: Origin { site: 0, number: 2 },
        body: Body::new(alloc, Text::new(body))?,
        group: None,
        enqueued: 10,
    };
    let transfer = Outbound {
        at: 40,
        sender: 0,
        number: 7,
        from: 0,
        to: 1,
        load,
    };
    Ok(vec![in alloc; transfer]?)
}

/// Whether these entries of a scenario are handled first, if the dead letter is on its way.
fn tells_of_an_arrival(alloc: Global, text: &[u8], wanted: &[Handled<'_>]) -> bool {
    match dead_letter(alloc) {
        Ok(transfers) => tells_after(alloc, text, transfers, wanted),
        Err(_) => false,
    }
}

#[test]
fn arrival_and_a_consumer_that_forwards(rt: HostRuntime) {
    let text =
        b"version = 1\nhorizon = 5000\n[[queue]]\nname = 'b'\n[[queue]]\nname = 'q'\n[[actor]]\nname = 'c'\nkind = 'consumer'\nqueue = 'q'\nstart_ms = 100\nservice_min_ms = 500\nservice_max_ms = 500\nforward = 'b'\nlatency_ms = 300\n";
    let wanted: [Handled<'_>; 4] = [
        (
            (40, 0, Class::Arrival, 7),
            b"40,q,b,arrive,new,m-1-0,,o-0-2\n",
            &[],
        ),
        (
            (100, 2, Class::Wake, 0),
            b"100,q,c,receive,ok,m-1-0,r-1-0-1,o-0-2\n",
            &[],
        ),
        (
            (600, 2, Class::Wake, 1),
            b"600,q,c,forward,out,m-1-0,,b\n600,q,c,delete,deleted,m-1-0,r-1-0-1,590\n",
            &[(900, 2, 0, 0)],
        ),
        ((601, 2, Class::Wake, 2), b"601,q,c,receive,empty,,,\n", &[]),
    ];
    assert!(rt; tells_of_an_arrival(rt.alloc(), text, &wanted));
}

/// A scaler reads each second how many of the messages of `q` are visible. Both copies park until it
/// wakes. The first copy then starts for 500 ms, and asks. It serves its message for 600 ms, though
/// the scaler wants none at 2000, when that is in flight. After that it parks as the other one.
#[test]
fn scaler_and_the_copies_that_go_by_it(rt: HostRuntime) {
    let text =
        b"version = 3\nhorizon = 5000\n[[queue]]\nname = 'q'\n[[actor]]\nname = 'p'\nkind = 'script'\nqueue = 'q'\ncalls = '''\nat,call,body,group,id,delay,receipt,max,wait,timeout,task\n0,send,abc,,,,,,,,\n'''\n[[actor]]\nname = 's'\nkind = 'scaler'\nqueue = 'q'\nstart_ms = 1000\nevery_s = 1\nvisible_per_copy = 1\ncopies_min = 0\ncopies_max = 2\n[[actor]]\nname = 'w'\nkind = 'consumer'\nqueue = 'q'\nstart_ms = 100\nservice_min_ms = 600\nservice_max_ms = 600\ncopies = 2\nscaler = 's'\nscaler_start_ms = 500\n".as_slice();
    let wanted: [Handled<'_>; 13] = [
        (
            (0, 1, Class::Wake, 0),
            b"0,q,p,send,new,m-0-0,,900150983cd24fb0d6963f7d28e17f72\n",
            &[],
        ),
        ((100, 3, Class::Wake, 0), b"", &[]),
        ((100, 4, Class::Wake, 0), b"", &[]),
        ((1000, 2, Class::Wake, 0), b"1000,q,s,scale,ok,,,0/1\n", &[]),
        ((1000, 3, Class::Wake, 1), b"", &[]),
        ((1000, 4, Class::Wake, 1), b"", &[]),
        (
            (1500, 3, Class::Wake, 2),
            b"1500,q,w-1,receive,ok,m-0-0,r-0-0-1,o-0-0\n",
            &[],
        ),
        ((2000, 2, Class::Wake, 1), b"2000,q,s,scale,ok,,,1/0\n", &[]),
        ((2000, 4, Class::Wake, 2), b"", &[]),
        (
            (2100, 3, Class::Wake, 3),
            b"2100,q,w-1,delete,deleted,m-0-0,r-0-0-1,2100\n",
            &[],
        ),
        ((2101, 3, Class::Wake, 4), b"", &[]),
        ((3000, 2, Class::Wake, 2), b"", &[]),
        ((3000, 3, Class::Wake, 5), b"", &[]),
    ];
    assert!(rt; tells(rt.alloc(), text, &wanted));
}
