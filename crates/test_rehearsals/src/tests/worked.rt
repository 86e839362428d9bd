//! Worked scenarios, and the bytes that each writes.

/// A scenario, and the bytes that its rehearsal writes.
#[derive(Clone, Copy)]
pub struct Worked {
    /// The text of the scenario. It has no script in a file.
    pub text: &'static [u8],
    /// The log, with its header.
    pub log: &'static [u8],
    /// The state at the end, and the report.
    pub ending: &'static [u8],
}

/// One queue to which one message is sent.
pub const ONE_SEND: Worked = Worked {
    text: b"version = 1
horizon = 1000
[[queue]]
name = \"q\"
[[actor]]
name = \"s\"
kind = \"script\"
queue = \"q\"
calls = \"\"\"
at,call,body,group,id,delay,receipt,max,wait,timeout,task
0,send,abc,,,,,,,,
\"\"\"
",
    log: b"at,queue,agent,call,answer,message,receipt,detail
0,q,s,send,new,m-0-0,,900150983cd24fb0d6963f7d28e17f72
",
    ending: b"final,queue,message,origin,place,due,enqueued,receives,group,md5
final,q,m-0-0,o-0-0,visible,,0,0,,900150983cd24fb0d6963f7d28e17f72
transfer,from,to,kind,due,number,message,origin,md5
task,name,status,moved
report,queue,sends,repeats,receives,empties,deletes,expiries,redrives,moves,arrivals,OverLimit,MessageNotInflight,ReceiptHandleIsInvalid,BadTimeout,MissingGroup,MissingDeduplication,BadDelay,TaskRunning,NoTask,depth_max,visible,in_flight,delayed,age_sum,age_max,age_p50,age_p95,age_p99
report,q,1,0,0,0,0,0,0,0,0,0,0,0,0,0,0,0,0,0,1,1,0,0,0,,,,
",
};

/// A message goes to the dead-letter queue at 500, and arrives there half a second later.
pub const ONE_REDRIVE: Worked = Worked {
    text: b"version = 1
horizon = 2000
[[queue]]
name = 'q'
visibility_s = 1
dead_letter = 'd'
max_receives = 1
latency_ms = 500
[[queue]]
name = 'd'
[[actor]]
name = 's'
kind = 'script'
queue = 'q'
calls = '''
at,call,body,group,id,delay,receipt,max,wait,timeout,task
0,send,abc,,,,,,,,
500,receive,,,,,,,,0,
'''
",
    log: b"at,queue,agent,call,answer,message,receipt,detail
0,q,s,send,new,m-0-0,,900150983cd24fb0d6963f7d28e17f72
500,q,s,receive,ok,m-0-0,r-0-0-1,o-0-0
500,q,q,redrive,out,m-0-0,,d
1000,d,q,arrive,new,m-1-0,,o-0-0
",
    ending: b"final,queue,message,origin,place,due,enqueued,receives,group,md5
final,d,m-1-0,o-0-0,visible,,0,0,,900150983cd24fb0d6963f7d28e17f72
transfer,from,to,kind,due,number,message,origin,md5
task,name,status,moved
report,queue,sends,repeats,receives,empties,deletes,expiries,redrives,moves,arrivals,OverLimit,MessageNotInflight,ReceiptHandleIsInvalid,BadTimeout,MissingGroup,MissingDeduplication,BadDelay,TaskRunning,NoTask,depth_max,visible,in_flight,delayed,age_sum,age_max,age_p50,age_p95,age_p99
report,q,1,0,1,0,0,0,1,0,0,0,0,0,0,0,0,0,0,0,1,0,0,0,0,,,,
report,d,0,0,0,0,0,0,0,0,1,0,0,0,0,0,0,0,0,0,1,1,0,0,0,,,,
",
};

/// Nothing is due before 1,000,000.
pub const IDLE_TIME: Worked = Worked {
    text: b"version = 1
horizon = 2000000
[[queue]]
name = 'q'
dead_letter = 'd'
max_receives = 1
latency_ms = 500
[[queue]]
name = 'd'
[[actor]]
name = 's'
kind = 'script'
queue = 'q'
calls = '''
at,call,body,group,id,delay,receipt,max,wait,timeout,task
1000000,send,abc,,,,,,,,
'''
",
    log: b"at,queue,agent,call,answer,message,receipt,detail
1000000,q,s,send,new,m-0-0,,900150983cd24fb0d6963f7d28e17f72
",
    ending: b"final,queue,message,origin,place,due,enqueued,receives,group,md5
final,q,m-0-0,o-0-0,visible,,1000000,0,,900150983cd24fb0d6963f7d28e17f72
transfer,from,to,kind,due,number,message,origin,md5
task,name,status,moved
report,queue,sends,repeats,receives,empties,deletes,expiries,redrives,moves,arrivals,OverLimit,MessageNotInflight,ReceiptHandleIsInvalid,BadTimeout,MissingGroup,MissingDeduplication,BadDelay,TaskRunning,NoTask,depth_max,visible,in_flight,delayed,age_sum,age_max,age_p50,age_p95,age_p99
report,q,1,0,0,0,0,0,0,0,0,0,0,0,0,0,0,0,0,0,1,1,0,0,0,,,,
report,d,0,0,0,0,0,0,0,0,0,0,0,0,0,0,0,0,0,0,0,0,0,0,0,,,,
",
};

/// A redrive takes 1 to 100 milliseconds: of two messages the second arrives first.
pub const LATENCY_BETWEEN_BOUNDS: Worked = Worked {
    text: b"version = 2
horizon = 1000
[[queue]]
name = 'q'
dead_letter = 'd'
max_receives = 1
latency_min_ms = 1
latency_max_ms = 100
[[queue]]
name = 'd'
[[actor]]
name = 's'
kind = 'script'
queue = 'q'
calls = '''
at,call,body,group,id,delay,receipt,max,wait,timeout,task
0,send,abc,,,,,,,,
1,send,abc,,,,,,,,
100,receive,,,,,,2,1,0,
'''
",
    log: b"at,queue,agent,call,answer,message,receipt,detail
0,q,s,send,new,m-0-0,,900150983cd24fb0d6963f7d28e17f72
1,q,s,send,new,m-0-1,,900150983cd24fb0d6963f7d28e17f72
100,q,s,receive,ok,m-0-0,r-0-0-1,o-0-0
100,q,s,receive,ok,m-0-1,r-0-1-1,o-0-1
100,q,q,redrive,out,m-0-0,,d
100,q,q,redrive,out,m-0-1,,d
157,d,q,arrive,new,m-1-0,,o-0-1
168,d,q,arrive,new,m-1-1,,o-0-0
",
    ending: b"final,queue,message,origin,place,due,enqueued,receives,group,md5
final,d,m-1-0,o-0-1,visible,,1,0,,900150983cd24fb0d6963f7d28e17f72
final,d,m-1-1,o-0-0,visible,,0,0,,900150983cd24fb0d6963f7d28e17f72
transfer,from,to,kind,due,number,message,origin,md5
task,name,status,moved
report,queue,sends,repeats,receives,empties,deletes,expiries,redrives,moves,arrivals,OverLimit,MessageNotInflight,ReceiptHandleIsInvalid,BadTimeout,MissingGroup,MissingDeduplication,BadDelay,TaskRunning,NoTask,depth_max,visible,in_flight,delayed,age_sum,age_max,age_p50,age_p95,age_p99
report,q,2,0,2,0,0,0,2,0,0,0,0,0,0,0,0,0,0,0,2,0,0,0,0,,,,
report,d,0,0,0,0,0,0,0,0,2,0,0,0,0,0,0,0,0,0,2,2,0,0,0,,,,
",
};

/// A forward arrives at the moment of a send.
pub const ONE_FORWARD: Worked = Worked {
    text: b"version = 1
horizon = 1200
[[queue]]
name = 'a'
[[queue]]
name = 'b'
[[actor]]
name = 'p'
kind = 'script'
queue = 'a'
calls = '''
at,call,body,group,id,delay,receipt,max,wait,timeout,task
0,send,abc,,,,,,,,
'''
[[actor]]
name = 'z'
kind = 'script'
queue = 'a'
calls = '''
at,call,body,group,id,delay,receipt,max,wait,timeout,task
1100,receive,,,,,,,,,
'''
[[actor]]
name = 's'
kind = 'script'
queue = 'b'
calls = '''
at,call,body,group,id,delay,receipt,max,wait,timeout,task
1100,send,abc,,,,,,,,
'''
[[actor]]
name = 'c'
kind = 'consumer'
queue = 'a'
start_ms = 100
service_min_ms = 500
service_max_ms = 500
forward = 'b'
latency_ms = 500
",
    log: b"at,queue,agent,call,answer,message,receipt,detail
0,a,p,send,new,m-0-0,,900150983cd24fb0d6963f7d28e17f72
100,a,c,receive,ok,m-0-0,r-0-0-1,o-0-0
600,a,c,forward,out,m-0-0,,b
600,a,c,delete,deleted,m-0-0,r-0-0-1,600
601,a,c,receive,empty,,,
1100,a,z,receive,empty,,,
1100,b,s,send,new,m-1-0,,900150983cd24fb0d6963f7d28e17f72
1100,b,c,arrive,new,m-1-1,,o-1-1
",
    ending: b"final,queue,message,origin,place,due,enqueued,receives,group,md5
final,b,m-1-0,o-1-0,visible,,1100,0,,900150983cd24fb0d6963f7d28e17f72
final,b,m-1-1,o-1-1,visible,,1100,0,,900150983cd24fb0d6963f7d28e17f72
transfer,from,to,kind,due,number,message,origin,md5
task,name,status,moved
report,queue,sends,repeats,receives,empties,deletes,expiries,redrives,moves,arrivals,OverLimit,MessageNotInflight,ReceiptHandleIsInvalid,BadTimeout,MissingGroup,MissingDeduplication,BadDelay,TaskRunning,NoTask,depth_max,visible,in_flight,delayed,age_sum,age_max,age_p50,age_p95,age_p99
report,a,1,0,1,2,1,0,0,0,0,0,0,0,0,0,0,0,0,0,1,0,0,0,600,600,600,600,600
report,b,1,0,0,0,0,0,0,0,1,0,0,0,0,0,0,0,0,0,2,2,0,0,0,,,,
",
};

/// Two queues with one dead-letter queue, and a task that moves messages back.
pub const MOVED_BACK: Worked = Worked {
    text: b"version = 1
horizon = 5000
[[queue]]
name = 'a'
dead_letter = 'd'
max_receives = 1
latency_ms = 5
[[queue]]
name = 'b'
dead_letter = 'd'
max_receives = 1
latency_ms = 5
[[queue]]
name = 'd'
[[actor]]
name = 's'
kind = 'script'
queue = 'a'
calls = '''
at,call,body,group,id,delay,receipt,max,wait,timeout,task
0,send,abc,,,,,,,,
1,send,abc,,,,,,,,
10,receive,,,,,,2,,0,
'''
[[actor]]
name = 't'
kind = 'script'
queue = 'b'
calls = '''
at,call,body,group,id,delay,receipt,max,wait,timeout,task
0,send,abc,,,,,,,,
1,send,abc,,,,,,,,
20,receive,,,,,,2,,0,
'''
[[actor]]
name = 'u'
kind = 'script'
queue = 'd'
calls = '''
at,call,body,group,id,delay,receipt,max,wait,timeout,task
100,start,,,,,,,,,k
200,start,,,,,,,,,k
1500,cancel,,,,,,,,,k
1600,cancel,,,,,,,,,k
'''
[[task]]
name = 'k'
queue = 'd'
per_second = 3
latency_ms = 100
",
    log: b"at,queue,agent,call,answer,message,receipt,detail
0,a,s,send,new,m-0-0,,900150983cd24fb0d6963f7d28e17f72
0,b,t,send,new,m-1-0,,900150983cd24fb0d6963f7d28e17f72
1,a,s,send,new,m-0-1,,900150983cd24fb0d6963f7d28e17f72
1,b,t,send,new,m-1-1,,900150983cd24fb0d6963f7d28e17f72
10,a,s,receive,ok,m-0-0,r-0-0-1,o-0-0
10,a,s,receive,ok,m-0-1,r-0-1-1,o-0-1
10,a,a,redrive,out,m-0-0,,d
10,a,a,redrive,out,m-0-1,,d
15,d,a,arrive,new,m-2-0,,o-0-0
15,d,a,arrive,new,m-2-1,,o-0-1
20,b,t,receive,ok,m-1-0,r-1-0-1,o-1-0
20,b,t,receive,ok,m-1-1,r-1-1-1,o-1-1
20,b,b,redrive,out,m-1-0,,d
20,b,b,redrive,out,m-1-1,,d
25,d,b,arrive,new,m-2-2,,o-1-0
25,d,b,arrive,new,m-2-3,,o-1-1
100,d,u,start,ok,,,k
200,d,u,start,TaskRunning,,,k
1100,d,k,move,out,m-2-0,,a
1100,d,k,move,out,m-2-1,,a
1100,d,k,move,out,m-2-2,,b
1200,a,k,arrive,new,m-0-2,,o-0-0
1200,a,k,arrive,new,m-0-3,,o-0-1
1200,b,k,arrive,new,m-1-2,,o-1-0
1500,d,u,cancel,ok,,,k
1600,d,u,cancel,NoTask,,,k
",
    ending: b"final,queue,message,origin,place,due,enqueued,receives,group,md5
final,a,m-0-2,o-0-0,visible,,1200,0,,900150983cd24fb0d6963f7d28e17f72
final,a,m-0-3,o-0-1,visible,,1200,0,,900150983cd24fb0d6963f7d28e17f72
final,b,m-1-2,o-1-0,visible,,1200,0,,900150983cd24fb0d6963f7d28e17f72
final,d,m-2-3,o-1-1,visible,,1,0,,900150983cd24fb0d6963f7d28e17f72
transfer,from,to,kind,due,number,message,origin,md5
task,name,status,moved
task,k,Cancelled,3
report,queue,sends,repeats,receives,empties,deletes,expiries,redrives,moves,arrivals,OverLimit,MessageNotInflight,ReceiptHandleIsInvalid,BadTimeout,MissingGroup,MissingDeduplication,BadDelay,TaskRunning,NoTask,depth_max,visible,in_flight,delayed,age_sum,age_max,age_p50,age_p95,age_p99
report,a,2,0,2,0,0,0,2,0,2,0,0,0,0,0,0,0,0,0,2,2,0,0,0,,,,
report,b,2,0,2,0,0,0,2,0,1,0,0,0,0,0,0,0,0,0,2,1,0,0,0,,,,
report,d,0,0,0,0,0,0,0,3,4,0,0,0,0,0,0,0,1,1,4,1,0,0,0,,,,
",
};

/// A message goes over three queues; the second's dead-letter queue is the first.
pub const THREE_QUEUES: Worked = Worked {
    text: b"version = 1
horizon = 6000
[[queue]]
name = 'a'
[[queue]]
name = 'b'
dead_letter = 'a'
max_receives = 1000
latency_ms = 10
[[queue]]
name = 'c'
[[actor]]
name = 'p'
kind = 'script'
queue = 'a'
calls = '''
at,call,body,group,id,delay,receipt,max,wait,timeout,task
0,send,abc,,,,,,,,
'''
[[actor]]
name = 'x'
kind = 'consumer'
queue = 'a'
start_ms = 100
service_min_ms = 100
service_max_ms = 100
idle_ms = 86400000
forward = 'b'
latency_ms = 10
[[actor]]
name = 'y'
kind = 'consumer'
queue = 'b'
wait_s = 20
service_min_ms = 100
service_max_ms = 100
forward = 'c'
latency_ms = 10
[[actor]]
name = 'z'
kind = 'script'
queue = 'c'
calls = '''
at,call,body,group,id,delay,receipt,max,wait,timeout,task
5000,receive,,,,,,,,,
'''
",
    log: b"at,queue,agent,call,answer,message,receipt,detail
0,a,p,send,new,m-0-0,,900150983cd24fb0d6963f7d28e17f72
0,b,y,receive,wait,,,
100,a,x,receive,ok,m-0-0,r-0-0-1,o-0-0
200,a,x,forward,out,m-0-0,,b
200,a,x,delete,deleted,m-0-0,r-0-0-1,200
201,a,x,receive,empty,,,
210,b,x,arrive,new,m-1-0,,o-1-0
210,b,y,receive,ok,m-1-0,r-1-0-1,o-1-0
310,b,y,forward,out,m-1-0,,c
310,b,y,delete,deleted,m-1-0,r-1-0-1,100
311,b,y,receive,wait,,,
320,c,y,arrive,new,m-2-0,,o-2-0
5000,c,z,receive,ok,m-2-0,r-2-0-1,o-2-0
",
    ending: b"final,queue,message,origin,place,due,enqueued,receives,group,md5
final,c,m-2-0,o-2-0,inflight,35000,320,1,,900150983cd24fb0d6963f7d28e17f72
transfer,from,to,kind,due,number,message,origin,md5
task,name,status,moved
report,queue,sends,repeats,receives,empties,deletes,expiries,redrives,moves,arrivals,OverLimit,MessageNotInflight,ReceiptHandleIsInvalid,BadTimeout,MissingGroup,MissingDeduplication,BadDelay,TaskRunning,NoTask,depth_max,visible,in_flight,delayed,age_sum,age_max,age_p50,age_p95,age_p99
report,a,1,0,1,1,1,0,0,0,0,0,0,0,0,0,0,0,0,0,1,0,0,0,200,200,200,200,200
report,b,0,0,1,0,1,0,0,0,1,0,0,0,0,0,0,0,0,0,1,0,0,0,100,100,100,100,100
report,c,0,0,1,0,0,0,0,0,1,0,0,0,0,0,0,0,0,0,1,0,1,0,0,,,,
",
};

/// A send to each of eight queues, at one moment.
pub const EIGHT_QUEUES: Worked = Worked {
    text: b"version = 1
horizon = 1000
[[queue]]
name = 'q0'
[[queue]]
name = 'q1'
[[queue]]
name = 'q2'
[[queue]]
name = 'q3'
[[queue]]
name = 'q4'
[[queue]]
name = 'q5'
[[queue]]
name = 'q6'
[[queue]]
name = 'q7'
[[actor]]
name = 's0'
kind = 'script'
queue = 'q0'
calls = '''
at,call,body,group,id,delay,receipt,max,wait,timeout,task
0,send,abc,,,,,,,,
'''
[[actor]]
name = 's1'
kind = 'script'
queue = 'q1'
calls = '''
at,call,body,group,id,delay,receipt,max,wait,timeout,task
0,send,abc,,,,,,,,
'''
[[actor]]
name = 's2'
kind = 'script'
queue = 'q2'
calls = '''
at,call,body,group,id,delay,receipt,max,wait,timeout,task
0,send,abc,,,,,,,,
'''
[[actor]]
name = 's3'
kind = 'script'
queue = 'q3'
calls = '''
at,call,body,group,id,delay,receipt,max,wait,timeout,task
0,send,abc,,,,,,,,
'''
[[actor]]
name = 's4'
kind = 'script'
queue = 'q4'
calls = '''
at,call,body,group,id,delay,receipt,max,wait,timeout,task
0,send,abc,,,,,,,,
'''
[[actor]]
name = 's5'
kind = 'script'
queue = 'q5'
calls = '''
at,call,body,group,id,delay,receipt,max,wait,timeout,task
0,send,abc,,,,,,,,
'''
[[actor]]
name = 's6'
kind = 'script'
queue = 'q6'
calls = '''
at,call,body,group,id,delay,receipt,max,wait,timeout,task
0,send,abc,,,,,,,,
'''
[[actor]]
name = 's7'
kind = 'script'
queue = 'q7'
calls = '''
at,call,body,group,id,delay,receipt,max,wait,timeout,task
0,send,abc,,,,,,,,
'''
",
    log: b"at,queue,agent,call,answer,message,receipt,detail
0,q0,s0,send,new,m-0-0,,900150983cd24fb0d6963f7d28e17f72
0,q1,s1,send,new,m-1-0,,900150983cd24fb0d6963f7d28e17f72
0,q2,s2,send,new,m-2-0,,900150983cd24fb0d6963f7d28e17f72
0,q3,s3,send,new,m-3-0,,900150983cd24fb0d6963f7d28e17f72
0,q4,s4,send,new,m-4-0,,900150983cd24fb0d6963f7d28e17f72
0,q5,s5,send,new,m-5-0,,900150983cd24fb0d6963f7d28e17f72
0,q6,s6,send,new,m-6-0,,900150983cd24fb0d6963f7d28e17f72
0,q7,s7,send,new,m-7-0,,900150983cd24fb0d6963f7d28e17f72
",
    ending: b"final,queue,message,origin,place,due,enqueued,receives,group,md5
final,q0,m-0-0,o-0-0,visible,,0,0,,900150983cd24fb0d6963f7d28e17f72
final,q1,m-1-0,o-1-0,visible,,0,0,,900150983cd24fb0d6963f7d28e17f72
final,q2,m-2-0,o-2-0,visible,,0,0,,900150983cd24fb0d6963f7d28e17f72
final,q3,m-3-0,o-3-0,visible,,0,0,,900150983cd24fb0d6963f7d28e17f72
final,q4,m-4-0,o-4-0,visible,,0,0,,900150983cd24fb0d6963f7d28e17f72
final,q5,m-5-0,o-5-0,visible,,0,0,,900150983cd24fb0d6963f7d28e17f72
final,q6,m-6-0,o-6-0,visible,,0,0,,900150983cd24fb0d6963f7d28e17f72
final,q7,m-7-0,o-7-0,visible,,0,0,,900150983cd24fb0d6963f7d28e17f72
transfer,from,to,kind,due,number,message,origin,md5
task,name,status,moved
report,queue,sends,repeats,receives,empties,deletes,expiries,redrives,moves,arrivals,OverLimit,MessageNotInflight,ReceiptHandleIsInvalid,BadTimeout,MissingGroup,MissingDeduplication,BadDelay,TaskRunning,NoTask,depth_max,visible,in_flight,delayed,age_sum,age_max,age_p50,age_p95,age_p99
report,q0,1,0,0,0,0,0,0,0,0,0,0,0,0,0,0,0,0,0,1,1,0,0,0,,,,
report,q1,1,0,0,0,0,0,0,0,0,0,0,0,0,0,0,0,0,0,1,1,0,0,0,,,,
report,q2,1,0,0,0,0,0,0,0,0,0,0,0,0,0,0,0,0,0,1,1,0,0,0,,,,
report,q3,1,0,0,0,0,0,0,0,0,0,0,0,0,0,0,0,0,0,1,1,0,0,0,,,,
report,q4,1,0,0,0,0,0,0,0,0,0,0,0,0,0,0,0,0,0,1,1,0,0,0,,,,
report,q5,1,0,0,0,0,0,0,0,0,0,0,0,0,0,0,0,0,0,1,1,0,0,0,,,,
report,q6,1,0,0,0,0,0,0,0,0,0,0,0,0,0,0,0,0,0,1,1,0,0,0,,,,
report,q7,1,0,0,0,0,0,0,0,0,0,0,0,0,0,0,0,0,0,1,1,0,0,0,,,,
",
};

/// Two queues whose consumers forward to each other, 10 milliseconds each way. A message goes there
/// and back.
pub const THERE_AND_BACK: Worked = Worked {
    text: b"version = 1
horizon = 100
[[queue]]
name = '''a'''
[[queue]]
name = '''b'''
[[actor]]
name = '''p'''
kind = '''script'''
queue = '''a'''
calls = '''at,call,body,group,id,delay,receipt,max,wait,timeout,task
0,send,abc,,,,,,,,
'''
[[actor]]
name = '''x'''
kind = '''consumer'''
queue = '''a'''
start_ms = 1
service_min_ms = 14
service_max_ms = 14
idle_ms = 86400000
forward = '''b'''
latency_ms = 10
[[actor]]
name = '''y'''
kind = '''consumer'''
queue = '''b'''
start_ms = 50
service_min_ms = 14
service_max_ms = 14
forward = '''a'''
latency_ms = 10
",
    log: b"at,queue,agent,call,answer,message,receipt,detail
0,a,p,send,new,m-0-0,,900150983cd24fb0d6963f7d28e17f72
1,a,x,receive,ok,m-0-0,r-0-0-1,o-0-0
15,a,x,forward,out,m-0-0,,b
15,a,x,delete,deleted,m-0-0,r-0-0-1,15
16,a,x,receive,empty,,,
25,b,x,arrive,new,m-1-0,,o-1-0
50,b,y,receive,ok,m-1-0,r-1-0-1,o-1-0
64,b,y,forward,out,m-1-0,,a
64,b,y,delete,deleted,m-1-0,r-1-0-1,39
65,b,y,receive,empty,,,
74,a,y,arrive,new,m-0-1,,o-0-1
",
    ending: b"final,queue,message,origin,place,due,enqueued,receives,group,md5
final,a,m-0-1,o-0-1,visible,,74,0,,900150983cd24fb0d6963f7d28e17f72
transfer,from,to,kind,due,number,message,origin,md5
task,name,status,moved
report,queue,sends,repeats,receives,empties,deletes,expiries,redrives,moves,arrivals,OverLimit,MessageNotInflight,ReceiptHandleIsInvalid,BadTimeout,MissingGroup,MissingDeduplication,BadDelay,TaskRunning,NoTask,depth_max,visible,in_flight,delayed,age_sum,age_max,age_p50,age_p95,age_p99
report,a,1,0,1,1,1,0,0,0,1,0,0,0,0,0,0,0,0,0,1,1,0,0,15,15,15,15,15
report,b,0,0,1,1,1,0,0,0,1,0,0,0,0,0,0,0,0,0,1,0,0,0,39,39,39,39,39
",
};
