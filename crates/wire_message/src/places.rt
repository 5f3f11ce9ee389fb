/// Where a text stands in another.
#[derive(Clone, Copy)]
pub struct Span {
    pub start: usize,
    pub end: usize,
}

/// Where the texts of a message stand in one text, which begins with its subject and ends with its payload.
#[derive(Clone, Copy)]
pub struct TextsAt {
    /// The bytes of the subject, which stand in front.
    pub subject: usize,
    /// Where the reply subject stands, if there is one: behind the blanks behind the subject.
    pub reply: Option<Span>,
    /// The bytes of the header block, which stands right before the payload; 0 where there is none.
    pub head: usize,
    /// The bytes of the payload, at the end.
    pub payload: usize,
}
