//! Theorems about a register in tables, and about a guard from run to run: functions without a body, whose contracts a
//! caller cites.

ghost use Rattle.std.specs.Prelude.{◌≡◌, ◌≤◌, ◌++◌, ◌∷◌, ℕ, List, All, Contains, Some, None, Ok};
ghost use Rattle.sqlite_wal.specs.Files.{outcomes};
ghost use Rattle.sqlite.specs.Held.{state};
ghost use Rattle.guard.specs.declared.approved.Approved.{Approved};
ghost use Rattle.guard.specs.Machine.{State, Question, refusal_of};
ghost use Rattle.guard.specs.Retirement.{retirement};
ghost use Rattle.guard_sql.specs.Keeping.{HasOneBodyASerial};
ghost use Rattle.guard_sql.specs.Lives.{LivesKeep, RunsGoOn};
ghost use Rattle.guard_sql.specs.Runs.{FoundIsHad, HeldIsHad, LeftIsHad, NoneIsBlank, RunKeepsGuard};
ghost use Rattle.guard_sql.specs.Steps.{AddsAsked, IsLater, Step, WasAskedIn, guard_after};

use crate::store::GuardStore;
use sqlite::{Alter, Connection, Files};
use sqlite_disk::Disk;

/// Two bodies under one serial are the same, byte by byte, whatever was done to the tables before.
pub fn a_serial_has_one_body<S: Alter>(store: &GuardStore<S>)
    ensures { HasOneBodyASerial (state S.Store store.now.conn) }
{
    let _ = store;
}

/// What a connection that was just opened has, if it has the database that its files held.
pub fn what_is_found_is_had<S: Alter>(conn: &Connection<S>)
    // Each guard whose rows its trees hold.
    ensures rows { FoundIsHad (state S.Store conn.now) }

    // So each guard that the files held.
    ensures held { HeldIsHad (state S.Store conn.now) }

    // If they held no row, a guard can be made.
    ensures blank { NoneIsBlank (state S.Store conn.now) }
{
    let _ = conn;
}

/// If the files that an open finds are among those that the last run may have left, with or without a crash since, the
/// connection has the guard that all of these hold.
pub fn what_was_left_is_had<D: Disk + Drop, S: Alter>(last: &Files<D>, conn: &Connection<S>)
    ensures { LeftIsHad (outcomes D.Disk last.now.log last.now.db) (state S.Store conn.now) }
{
    let _ = last;
    let _ = conn;
}

/// After every sequence of runs, from no file on, the files hold the guard after the runs' steps, with each body for
/// which a run printed that it may be signed, under its serial. A crash may have ended each run. The same holds after
/// one more run.
pub fn lives_keep_what_was_signed()
    ensures keep { LivesKeep }
    ensures goes_on { RunsGoOn }
{}

/// A run that closed its files well leaves the guard that it found in them, with the bodies that it approved.
pub fn a_run_keeps_the_guard<D: Disk + Drop>(files: &Files<D>)
    ensures { RunKeepsGuard D.Disk files.now }
{
    let _ = files;
}

/// Each body that a guard keeps after any steps was asked for in one of them, and could be signed then: permitted by
/// the policy that was given, for the guard's CA and under one of its serials at that time.
pub fn a_kept_body_was_permitted()
    ensures { (steps : List Step) (s : State) → guard_after steps ≡ Some s → All (WasAskedIn steps) s.approved }
{}

/// Each body that is added by steps was asked for in one of them, and could be signed then, from any state on: also from
/// one that an older copy of the files has, whatever they held.
pub fn an_added_body_was_permitted()
    ensures { (s : State) (steps : List Step) → AddsAsked s steps }
{}

/// Whatever steps come later, the CA and the first serial stay, and the last serial is never raised. Each approved body
/// stays, and none is approved above the last serial of an earlier time.
pub fn a_guard_only_narrows()
    ensures { (steps later : List Step) (s t : State) → guard_after steps ≡ Some s
        → guard_after (steps ++ later) ≡ Some t → IsLater s t }
{}

/// After a retirement to a last serial no approved body is above it, whatever steps come later.
pub fn a_retired_guard_stays_retired()
    ensures { (steps later : List Step) (last : ℕ) (s retired t : State) → guard_after steps ≡ Some s
        → retirement s last ≡ Ok retired → guard_after (steps ++ Step.retiring last ∷ later) ≡ Some t
        → All (λ a. a.serial ≤ last) t.approved }
{}

/// Two rows with the same serial are equal, so a serial has only one body, whatever the steps were.
pub fn a_kept_serial_has_one_body()
    ensures { (steps : List Step) (s : State) (a b : Approved) → guard_after steps ≡ Some s
        → Contains s.approved a → Contains s.approved b → a.serial ≡ b.serial → a ≡ b }
{}

/// A body that may be signed may be signed again after that question, whatever is asked in between, under any policy
/// and at any time, and after any retirement.
pub fn a_kept_body_is_signed_again()
    ensures { (steps later : List Step) (s t : State) (q again : Question) → guard_after steps ≡ Some s
        → refusal_of s q ≡ None → again.body ≡ q.body
        → guard_after (steps ++ Step.asking q ∷ later) ≡ Some t → refusal_of t again ≡ None }
{}
