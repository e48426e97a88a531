ghost use Rattle.std.specs.Prelude.{◌≡◌, ◌<◌, ◌≤◌, length, slice_get, Some};
ghost use Rattle.flake_model.specs.Command.{command_of, parts, fault};
ghost use Rattle.shard_part.specs.Parts.{operation_of, HasOwnValue};
ghost use Rattle.command_parts.specs.Meaning.{op_of, argument_of, request_words, IsAmong};

use crate::Op;
use crate::tested::asked;
use flake_base::ErrorKind;
use resp_reader::Request;
use shard_part::{Part, PartOp};
use std::marker::Model;

/// A command, with the words of its request, if it came from one.
#[derive(Drop)]
pub struct Command {
    pub(crate) op: Op,
    pub(crate) request: Option<Request>,
}

impl Model for Command {
    ghost use Rattle.flake_model.specs.Command as model;
    ghost use Rattle.command_parts.specs.Meaning.{command_by, request_words, FitsWords};

    ghost Value = { model.Command };

    ghost view = { λ c. command_by c.op (request_words c.request) };

    ghost invariant = { λ c. FitsWords c.op (request_words c.request) };
}

impl Command {
    /// What a request asks for.
    #[inline(always)]
    pub fn of(request: Request) -> Command
        ensures { result ≡ command_of request }
    {
        Command {
            op: asked(&request),
            request: Some(request),
        }
    }

    /// The command behind the last request of an input that breaks the protocol: it is answered by this error.
    pub fn protocol(error: ErrorKind) -> Command
        ensures { result ≡ fault error }
    {
        Command {
            op: Op::Fault(error),
            request: None,
        }
    }

    /// The request that it came from, whose room can serve again; none, if an error of the protocol made it.
    pub fn into_request(self) -> Option<Request>
        ensures { IsAmong self (request_words result) }
    {
        self.request
    }

    pub fn op(&self) -> Op
        ensures { result ≡ op_of self.now }
    {
        self.op
    }

    /// The number of parts.
    pub fn count(&self) -> usize
        ensures parts { result ≡ length (parts self.now) }
        ensures few { result ≤ 64 }
    {
        match (self.op, &self.request) {
            (Op::One(_), _) => 1,
            (Op::MGet | Op::Del | Op::Exists, Some(request)) => request.len() - 1,
            _ => 0,
        }
    }

    /// The part of this number, from 0.
    pub fn part(&self, j: usize) -> Part<'_>
        requires { j < length (parts self.now) }
        ensures operation { slice_get (parts self.now) j ≡ Some (operation_of result) }
        ensures key { length result.key.now ≤ 512 }
        ensures value { length result.value.now ≤ 65536 }
        ensures own_value { HasOwnValue result.op result.value.now }
    {
        let Some(request) = &self.request else {
            unreachable!()
        };
        let key = request.word(j + 1);
        let op = match self.op {
            Op::One(op) => op,
            Op::MGet => PartOp::Get,
            Op::Del => PartOp::Del,
            Op::Exists => PartOp::Exists,
            Op::Ping | Op::PingWith | Op::Fault(_) => unreachable!(),
        };
        let value: &[u8] = if op.takes_value() {
            request.word(2)
        } else {
            &[]
        };
        Part { op, key, value }
    }

    /// PING's argument, which is its reply; nothing for any other command.
    pub fn argument(&self) -> &[u8]
        ensures argument { result.now ≡ argument_of self.now }
        ensures short { length result.now ≤ 16384 }
    {
        match (self.op, &self.request) {
            (Op::PingWith, Some(request)) => request.word(1),
            _ => &[],
        }
    }
}
