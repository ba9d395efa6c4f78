//! The calls of a queue and its replies.

/// A call of a queue.
#[derive(Clone, Copy, Debug, PartialEq, Eq)]
pub enum QueueCall {
    Put { value: u128 },
    Take,
}

/// What a queue replies.
#[derive(Clone, Copy, Debug, PartialEq, Eq)]
pub enum QueueReply {
    Put,
    Took(u128),
    Empty,
}

/// How a call was answered.
#[derive(Clone, Copy, Debug, PartialEq, Eq)]
pub enum QueueAnswer {
    Said(QueueReply),
    /// There was no free record.
    Full,
    /// As many turns were lost as might be.
    Lost { turns: u64 },
}

/// A call that changed the queue, as its caller's call of this number.
#[derive(Clone, Copy, Debug, PartialEq, Eq)]
pub struct QueueChange {
    pub caller: u32,
    pub number: u64,
    pub call: QueueCall,
}

/// A call of one caller with its reply and its place in the log.
#[derive(Clone, Copy, Debug, PartialEq, Eq)]
pub struct QueuePlaced {
    pub call: QueueCall,
    pub reply: QueueReply,
    pub place: u64,
}
