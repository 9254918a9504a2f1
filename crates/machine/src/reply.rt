//! The type of a reply: a status and a body, or the code of a fault that no line has. What bodies
//! say is in `bodies.rt`, how they're sent in the crate `http_edge`. `specs/Reply`.
ghost use Rattle.std.specs.Prelude.{◌≡◌, map};

use crate::code::Code;
use std::marker::Model;

// A code; or a status with a body that was made, or with a constant one.
#[derive(Drop)]
pub(crate) enum Content {
    Refused(Code),
    Made(u16, String),
    Fixed(u16, &'static str),
}

/// A status (RFC 9110, section 15) and a body, which is compact JSON with its members in the order
/// of their bytes.
#[derive(Drop)]
pub struct Reply {
    content: Content,
}

impl Model for Reply {
    ghost use Rattle.machine.specs.Reply.{ReplyValue};
    ghost use Rattle.machine.specs.Bodies.{content_value};

    ghost Value = { ReplyValue };

    ghost view = { λ r. content_value r.content };
}

impl Reply {
    ghost use Rattle.std.specs.Prelude.{string_bytes};
    ghost use Rattle.machine.specs.Reply.{made, out_of_memory, refused, reply_body, reply_status};

    /// The status.
    pub fn status(&self) -> u16
        ensures { result ≡ reply_status self.now }
    {
        match &self.content {
            Content::Refused(code) => code.reply().0,
            Content::Made(status, _) => *status,
            Content::Fixed(status, _) => *status,
        }
    }

    /// The body.
    pub fn body(&self) -> &str
        ensures { result.now ≡ reply_body self.now }
    {
        match &self.content {
            Content::Refused(code) => code.reply().1,
            Content::Made(_, body) => body.as_str(),
            Content::Fixed(_, body) => body,
        }
    }

    /// The reply of a code that no line has. It takes no memory.
    pub fn refused(code: Code) -> Reply
        ensures { result ≡ refused code }
    {
        Reply {
            content: Content::Refused(code),
        }
    }

    /// The reply where memory was refused. It takes no memory.
    pub fn out_of_memory() -> Reply
        ensures { result ≡ out_of_memory }
    {
        Reply::refused(Code::S02)
    }

    /// A reply with a constant body. It takes no memory.
    pub(crate) fn fixed(status: u16, body: &'static str) -> Reply
        ensures { result ≡ made status body.now }
    {
        Reply {
            content: Content::Fixed(status, body),
        }
    }

    /// A reply with a body that was made for it.
    pub fn made(status: u16, body: String) -> Reply
        ensures { result ≡ made status (string_bytes body) }
    {
        Reply {
            content: Content::Made(status, body),
        }
    }
}
