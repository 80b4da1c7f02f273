ghost use Rattle.std.specs.Prelude.{◌≡◌, IfOk};

use crate::status::Status;
use crate::text::Text;
use mip_words::{Bytes, Memory};
use std::alloc::Global;
use std::marker::Model;

/// What is to be written, and the status that comes with it.
#[derive(Drop)]
pub struct Reply {
    pub status: Status,
    pub text: Text,
}

impl Model for Reply {
    ghost use Rattle.mip_replies.specs.Answers.{Answer};
    ghost use Rattle.mip_replies.specs.Texts.{text_of};

    ghost Value = { Answer };

    ghost view = { λ r. record { status = r.status.0; text = text_of r.text } };
}

impl Reply {
    pub fn whole(status: Status, text: Bytes) -> Reply
        ensures { result ≡ record { status = status.0; text = text } }
    {
        Reply {
            status,
            text: Text::Whole(text),
        }
    }

    pub fn copy(alloc: Global, status: Status, text: &[u8]) -> Result<Reply, Memory>
        ensures { IfOk result (λ reply. reply ≡ record { status = status.0; text = text.now }) }
    {
        let text = Bytes::copy(alloc, text)?;
        Ok(Reply::whole(status, text))
    }
}
