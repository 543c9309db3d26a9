//! The question in a line for the checker.

ghost use Rattle.std.specs.Prelude.{◌≡◌, IfOk};
ghost use Rattle.serde_json.specs.View.{view};
ghost use Rattle.coniks_tool.specs.Check.{requested_in, question_read};

use coniks_programs::members::{digits32, text};
use coniks_programs::printing::Member;
use coniks_programs::proof_object::read_proof;
use coniks_proof::{Digest, Index, Nonce, Proof};
use serde_json::Value;
use std::alloc::{AllocError, Global};

/// A question: whether a proof is accepted for a name and its index, under a root and a nonce.
#[derive(Drop)]
pub struct Question<'v> {
    pub index: Index,
    pub name: &'v str,
    pub nonce: Nonce,
    pub root: Digest,
    pub proof: Proof,
}

/// The question of a line, as it was read.
#[derive(Drop)]
pub enum ReadQuestion<'v> {
    /// Each member was read.
    Whole(Question<'v>),
    /// This member is the first bad one.
    BadMember(Member),
}

/// Reads the question of a line, or returns the first bad member in the order `index`, `name`, `nonce`, `root`, `proof`.
///
/// A bad member is missing, of another kind or of a wrong text.
///
/// # Errors
///
/// `AllocError` if an allocation fails.
pub fn read_question<'v>(alloc: Global, object: &'v Value) -> Result<ReadQuestion<'v>, AllocError>
    ensures { IfOk result (λ question. question_read question ≡ requested_in (view object.now)) }
{
    let Some(index) = digits32(object, "index") else {
        return Ok(ReadQuestion::BadMember(Member::Index));
    };
    let Some(name) = text(object, "name") else {
        return Ok(ReadQuestion::BadMember(Member::Name));
    };
    let Some(nonce) = digits32(object, "nonce") else {
        return Ok(ReadQuestion::BadMember(Member::Nonce));
    };
    let Some(root) = digits32(object, "root") else {
        return Ok(ReadQuestion::BadMember(Member::Root));
    };
    let Some(proof) = read_proof(alloc, object)? else {
        return Ok(ReadQuestion::BadMember(Member::Proof));
    };
    Ok(ReadQuestion::Whole(Question {
        index: Index(index),
        name,
        nonce: Nonce(nonce),
        root: Digest(root),
        proof,
    }))
}
