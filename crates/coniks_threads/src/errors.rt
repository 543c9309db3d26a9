//! The errors of claims and boards.
use thiserror::Error;

/// The claims could not be allocated.
#[derive(Clone, Copy, Debug, Drop, PartialEq, Eq, Error)]
#[error("out of memory for the claims")]
pub struct NoClaims;

/// There is no further drawer or watcher.
#[derive(Clone, Copy, Debug, Drop, PartialEq, Eq, Error)]
#[error("no further seat is available")]
pub struct NoSeat;

/// The board could not be allocated.
#[derive(Clone, Copy, Debug, Drop, PartialEq, Eq, Error)]
#[error("out of memory for the board")]
pub struct NoBoard;

/// The board has as many heads as it takes.
#[derive(Clone, Copy, Debug, Drop, PartialEq, Eq, Error)]
#[error("the board is full")]
pub struct BoardFull;
