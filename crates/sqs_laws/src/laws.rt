//! Laws of the rows of a run. Each function does nothing: its contract is the law.
ghost use Rattle.sqs_laws.specs.Log.{LogKeepsTheRules, LogSaysWhatIsLeft, LogTellsJourneys};
ghost use Rattle.sqs_laws.specs.Reach.{ChangesStayInReach};

/// The log of every sound scenario keeps the rules.
pub fn log_keeps_the_rules()
    ensures { LogKeepsTheRules }
{}

/// The log of every scenario whose queues are in their ranges says which messages are left at the
/// end, which of them are in flight, and how often each was received.
pub fn log_says_what_is_left()
    ensures { LogSaysWhatIsLeft }
{}

/// The log of every sound scenario tells each journey of a message from queue to queue: it arrives,
/// or is still under way at the end.
pub fn log_tells_journeys()
    ensures { LogTellsJourneys }
{}

/// Two scenarios may differ only at queues from which no way leads to some others. At these others
/// they give the same rows, in the same order, and leave the same messages.
pub fn changes_stay_in_reach()
    ensures { ChangesStayInReach }
{}
