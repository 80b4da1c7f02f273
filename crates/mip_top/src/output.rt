use mip_replies::Status;
use mip_words::Bytes;
use std::marker::Model;

/// What was written, and the status that came with it.
#[derive(Drop)]
pub struct Output {
    pub status: Status,
    pub text: Bytes,
}

impl Model for Output {
    ghost use Rattle.mip_replies.specs.Answers.{Answer};

    ghost Value = { Answer };

    ghost view = { λ o. record { status = o.status.0; text = o.text } };
}
