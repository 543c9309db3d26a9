//! Lemmas about the definitions, each the contract of a function that does nothing.

ghost use Rattle.coniks_quorum.specs.Alarms.{LogLaw};
ghost use Rattle.coniks_quorum.specs.Clients.{AccountLaw, AgainLaw, BeginLaw, ClientsLaw, CoverLaw, FeedLaw, LookLaw, WholeLaw};
ghost use Rattle.coniks_quorum.specs.Covering.{LeftOverLaw};
ghost use Rattle.coniks_quorum.specs.Laws.{AgreeLaw, CutLaw, GrowLaw, HeadsLaw, LeftLaw, OwnerQuorumLaw, PlaceLaw, QuorumLaw, SharedLaw, TightLaw, WatcherQuorumLaw, WitnessLaw};
ghost use Rattle.coniks_quorum.specs.Reporting.{GoodLaw, GoodPastLaw, GoodRunLaw, LoggedLaw};
ghost use Rattle.coniks_quorum.specs.Successions.{NextClientLaw, NextWatchLaw};
ghost use Rattle.coniks_quorum.specs.Vouching.{StartLaw};

/// Proves that two quorums share more auditors than may lie.
pub fn shared()
    ensures { SharedLaw }
{}

/// Proves that two clients are on one chain up to the epochs that quorums confirm to them, and what an owner then knows.
pub fn quorum()
    ensures shares { QuorumLaw }
    ensures place { PlaceLaw }
    ensures agree { AgreeLaw }
    ensures owner { OwnerQuorumLaw }
    ensures watcher { WatcherQuorumLaw }
{}

/// Proves that marks stay right as a chain grows and older entries are dropped.
pub fn marks()
    ensures grow { GrowLaw }
    ensures left { LeftLaw }
{}

/// Proves that heads give marks, and that a cut before the confirmed epoch loses none that count.
pub fn heads()
    ensures marks { HeadsLaw }
    ensures cut { CutLaw }
{}

/// Proves that the premises of the laws can be met, and that one auditor less than a quorum is too few.
pub fn tight()
    ensures witness { WitnessLaw }
    ensures tight { TightLaw }
{}

/// Proves that the steps of a client keep its chain, its marks and what it knows of dropped epochs.
pub fn clients()
    ensures feed { FeedLaw }
    ensures again { AgainLaw }
    ensures look { LookLaw }
    ensures begin { BeginLaw }
    ensures cover { CoverLaw }
    ensures account { AccountLaw }
    ensures whole { WholeLaw }
    ensures law { ClientsLaw }
    ensures start { StartLaw }
    ensures next { NextClientLaw }
    ensures next_watch { NextWatchLaw }
    ensures left_over { LeftOverLaw }
{}

/// Proves that a client that relies on a key has the one that its owner expects, if the owner's client reported `Good` of that epoch.
///
/// Else two byte strings have one hash, or two VRF proofs give the name two indices. This is so of dropped epochs too, of which no alarm
/// was noted.
pub fn good()
    ensures law { GoodLaw }
    ensures runs { GoodRunLaw }
    ensures past { GoodPastLaw }
{}

/// Proves that dropped epochs leave no gap in what is known: each watched one was seen as the same or has an alarm, and if `Good` is
/// reported, each one was the same.
pub fn alarms()
    ensures log { LogLaw }
    ensures logged { LoggedLaw }
{}
