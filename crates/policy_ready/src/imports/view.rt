//! A view of a published message.
use base::Shared;
use bytes::Bytes;
use policy_doc::exports::Row;
use subjects::Subject;

/// How a message comes into an account.
#[derive(Debug, Drop)]
pub enum Way {
    /// It was published there.
    Own,
    /// Across this import row of a stream.
    Stream(Shared<Row>),
    /// As a request, across this import row of a service.
    Service(Shared<Row>),
    /// As a response to a request that came across this import row.
    Response(Shared<Row>),
}

/// A view of a published message, or the import row that doesn't take it.
#[derive(Debug, Drop)]
pub enum ViewItem {
    /// The message is seen in an account.
    At {
        /// The account's name.
        account: Bytes,
        /// The subject that the message has there.
        subject: Subject,
        /// How it comes there.
        way: Way,
    },
    /// Across this row its subject would have more than 512 tokens, so it doesn't cross it.
    TooLong(Shared<Row>),
}
