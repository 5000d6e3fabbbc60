//! Whole jobs, from opening a guard's file to closing it.
//!
//! A guard is opened once, or not at all if a file can't be read. It is closed afterwards.

ghost use Rattle.std.specs.Prelude.{◌≡◌, Err, IfErr, IfOk, IsTrue, Ok, OnErr, false, map, string_bytes};
ghost use Rattle.values.specs.Serials.{are_serials};
ghost use Rattle.guard.specs.Machine.{State};
ghost use Rattle.guard.specs.Policies.{policy_at};
ghost use Rattle.station_jobs.specs.Bodies.{PrintsBody, PrintsRows};
ghost use Rattle.station_jobs.specs.Faults.{IsOfBodies};
ghost use Rattle.station_jobs.specs.Judging.{AsksGiven, AsksNow, IsBadPolicyAt, IsPolicyAt, Judges};
ghost use Rattle.station_jobs.specs.Leaving.{Leaves, OfBodies, OfNone, OfRetiring};
ghost use Rattle.station_jobs.specs.Reported.{PassesOn};
ghost use Rattle.station_jobs.specs.Whole.{IsOfGiven, IsReadAs, JudgesGiven, JudgesIn, KeepsFiles, MakesIn, Retires};
ghost use Rattle.station_jobs.specs.Whole.{RunsIn, departments_of, is_input, most_of};

use crate::bodies::{print_bodies, print_body};
use crate::guard_file::GuardFile;
use crate::input::judge_batches;
use crate::judging::judge_files;
use crate::policy_file::{PolicyText, read_policy};
use crate::station_fault::StationFault;
use crate::surroundings::Surroundings;
use crate::telling::closed;
use guard::{Register, Scope, retire};
use std::alloc::Global;
use std::io::{BufRead, Read, Write};

/// What to judge: the path of the policy, the seconds ahead, and the paths of the unsigned certificates (bodies).
#[derive(Clone, Copy)]
pub struct Judging<'a> {
    /// The path of the policy.
    pub policy: &'a str,
    /// How many seconds after the current time a validity may begin.
    pub ahead: u64,
    /// The paths of the bodies, or one `-` for the bodies of the input.
    pub bodies: &'a [String],
}

/// Whether these bodies stand for those of the input.
fn is_input(bodies: &[String]) -> bool
    ensures { result ≡ is_input (map string_bytes bodies.now) }
{
    match bodies {
        [body] => body.as_str() == "-",
        _ => false,
    }
}

/// Judges the bodies in files by one policy, which is then dropped.
fn judge_named<F: Read + Drop, P: Surroundings<File = F>, G: Register, W: Write>(
    alloc: Global,
    around: &P,
    register: &mut G,
    judging: &Judging<'_>,
    known: PolicyText,
    out: &mut W,
) -> Result<(), StationFault>
    requires { IsPolicyAt P.Surroundings around.now F.remaining judging.now.policy.now known.policy }
    ensures honest { G.is_honest register.new → G.is_honest register.old }
    ensures judges { G.is_honest register.new → (s : State) → G.keeps register.old s
        → Judges 1 s (Leaves G.Register (OfBodies 1
        (AsksNow P.Surroundings around.now F.remaining judging.now.policy.now judging.now.ahead))
        register.old register.new s)
        (AsksNow P.Surroundings around.now F.remaining judging.now.policy.now judging.now.ahead)
        (map string_bytes judging.now.bodies.now) (W.contents out.old) (W.contents out.new) result }
    ensures only { IfErr result IsOfBodies }
    ensures reported { PassesOn (G.reported register.old) (G.reported register.new) result }
{
    let (ahead, bodies) = (judging.ahead, judging.bodies);
    let done = judge_files(alloc, around, register, &known.policy, ahead, bodies, out);
    drop(known);
    done
}

/// Judges the named bodies, or those of the input.
fn judge_given<F: Read + Drop, P: Surroundings<File = F>, G: Register, I: BufRead, W: Write>(
    alloc: Global,
    around: &P,
    register: &mut G,
    judging: &Judging<'_>,
    known: PolicyText,
    input: &mut I,
    out: &mut W,
) -> Result<(), StationFault>
    requires read { policy_at known.text.items ≡ Ok known.policy }
    requires at { IsPolicyAt P.Surroundings around.now F.remaining judging.now.policy.now known.policy }
    ensures honest { G.is_honest register.new → G.is_honest register.old }
    ensures judges { G.is_honest register.new → (s : State) → G.keeps register.old s
        → JudgesGiven (is_input (map string_bytes judging.now.bodies.now)) s
        (Leaves G.Register (OfBodies (most_of (is_input (map string_bytes judging.now.bodies.now)))
        (AsksGiven P.Surroundings around.now F.remaining (is_input (map string_bytes judging.now.bodies.now))
        judging.now.policy.now judging.now.ahead)) register.old register.new s)
        (AsksGiven P.Surroundings around.now F.remaining (is_input (map string_bytes judging.now.bodies.now))
        judging.now.policy.now judging.now.ahead)
        (map string_bytes judging.now.bodies.now) (I.remaining input.old) (W.contents out.old) (W.contents out.new)
        result }
    ensures only { IfErr result (IsOfGiven
        (IsBadPolicyAt P.Surroundings around.now F.remaining judging.now.policy.now)
        (is_input (map string_bytes judging.now.bodies.now))) }
    ensures reported { PassesOn (G.reported register.old) (G.reported register.new) result }
    ensures unread { is_input (map string_bytes judging.now.bodies.now) ≡ false
        → I.remaining input.new ≡ I.remaining input.old }
{
    let (policy, ahead) = (judging.policy, judging.ahead);
    if is_input(judging.bodies) {
        return judge_batches(alloc, around, register, policy, ahead, known, input, out);
    }
    judge_named(alloc, around, register, judging, known, out)
}

/// The policy in the file at a path.
fn policy_at<F: Read + Drop, P: Surroundings<File = F>>(
    alloc: Global,
    around: &P,
    path: &str,
) -> Result<PolicyText, StationFault>
    ensures text { IfOk result (λ p. policy_at p.text.items ≡ Ok p.policy) }
    ensures read { IsReadAs P.Surroundings around.now F.remaining path.now (departments_of result) }
{
    match around.open(path) {
        Ok(file) => read_policy(alloc, file),
        Err(fault) => Err(fault),
    }
}

/// Judges bodies over the guard in a file by a policy that was read.
fn judge_over<
    F: Read + Drop,
    P: Surroundings<File = F>,
    G: Register,
    D: GuardFile<Guard = G>,
    I: BufRead,
    W: Write,
>(
    alloc: Global,
    around: &P,
    db: &mut D,
    path: &str,
    judging: &Judging<'_>,
    known: PolicyText,
    input: &mut I,
    out: &mut W,
) -> Result<(), StationFault>
    requires read { policy_at known.text.items ≡ Ok known.policy }
    requires at { IsPolicyAt P.Surroundings around.now F.remaining judging.now.policy.now known.policy }
    requires keeps { KeepsFiles G.Register D.GuardFile }
    ensures runs { RunsIn G.Register D.GuardFile db.old db.new path.now
        (OfBodies (most_of (is_input (map string_bytes judging.now.bodies.now)))
        (AsksGiven P.Surroundings around.now F.remaining (is_input (map string_bytes judging.now.bodies.now))
        judging.now.policy.now judging.now.ahead))
        (λ s Left r. JudgesGiven (is_input (map string_bytes judging.now.bodies.now)) s Left
        (AsksGiven P.Surroundings around.now F.remaining (is_input (map string_bytes judging.now.bodies.now))
        judging.now.policy.now judging.now.ahead)
        (map string_bytes judging.now.bodies.now) (I.remaining input.old) (W.contents out.old) (W.contents out.new) r
        × IfErr r (IsOfGiven (IsBadPolicyAt P.Surroundings around.now F.remaining judging.now.policy.now)
        (is_input (map string_bytes judging.now.bodies.now))))
        (W.contents out.new ≡ W.contents out.old) result }
    ensures unread { is_input (map string_bytes judging.now.bodies.now) ≡ false
        → I.remaining input.new ≡ I.remaining input.old }
{
    match db.open(alloc, path) {
        Ok(guard) => {
            let mut guard = guard;
            let done = judge_given(alloc, around, &mut guard, judging, known, input, out);
            closed(done, db.close(guard))
        }
        Err(fault) => {
            drop(known);
            Err(fault)
        }
    }
}

/// Judges bodies by a policy over the guard in a file, and prints the line of each answer. The policy is read before
/// the guard's file is looked for.
///
/// # Errors
///
/// The first fault, in this order: of the policy, of the guard's file, of the bodies. Lines printed before it remain. A
/// fault of closing is returned if everything else succeeded.
pub fn judge_in<
    F: Read + Drop,
    P: Surroundings<File = F>,
    G: Register,
    D: GuardFile<Guard = G>,
    I: BufRead,
    W: Write,
>(
    alloc: Global,
    around: &P,
    db: &mut D,
    path: &str,
    judging: &Judging<'_>,
    input: &mut I,
    out: &mut W,
) -> Result<(), StationFault>
    requires { KeepsFiles G.Register D.GuardFile }
    ensures judges { JudgesIn P.Surroundings around.now F.remaining G.Register D.GuardFile db.old db.new path.now
        judging.now.policy.now judging.now.ahead (map string_bytes judging.now.bodies.now) (I.remaining input.old)
        (W.contents out.old) (W.contents out.new) result }

    // The input is read only for its bodies.
    ensures unread { is_input (map string_bytes judging.now.bodies.now) ≡ false
        → I.remaining input.new ≡ I.remaining input.old }
{
    match policy_at(alloc, around, judging.policy) {
        Ok(known) => judge_over(alloc, around, db, path, judging, known, input, out),
        Err(fault) => Err(fault),
    }
}

/// Prints a line for each body that the guard in a file has approved.
///
/// # Errors
///
/// Why the guard wasn't opened, or why not everything could be printed.
pub fn bodies_in<G: Register, D: GuardFile<Guard = G>, W: Write>(
    alloc: Global,
    db: &mut D,
    path: &str,
    out: &mut W,
) -> Result<(), StationFault>
    requires { KeepsFiles G.Register D.GuardFile }
    ensures { RunsIn G.Register D.GuardFile db.old db.new path.now OfNone
        (λ s Left r. PrintsRows s Left (W.contents out.old) (W.contents out.new) r)
        (W.contents out.new ≡ W.contents out.old) result }
{
    match db.open(alloc, path) {
        Ok(guard) => {
            let mut guard = guard;
            let done = print_bodies(alloc, &mut guard, out);
            closed(done, db.close(guard))
        }
        Err(fault) => Err(fault),
    }
}

/// Prints the body that the guard in a file has approved under a serial.
///
/// # Errors
///
/// `UnknownSerial` if there is none; why the guard wasn't opened; or why the body couldn't be printed.
pub fn body_in<G: Register, D: GuardFile<Guard = G>, W: Write>(
    alloc: Global,
    db: &mut D,
    path: &str,
    serial: u64,
    out: &mut W,
) -> Result<(), StationFault>
    requires { KeepsFiles G.Register D.GuardFile }
    ensures { RunsIn G.Register D.GuardFile db.old db.new path.now OfNone
        (λ s Left r. PrintsBody s serial (W.contents out.old) (W.contents out.new) r × Left s r)
        (W.contents out.new ≡ W.contents out.old) result }
{
    match db.open(alloc, path) {
        Ok(guard) => {
            let mut guard = guard;
            let done = print_body(alloc, &mut guard, serial, out);
            closed(done, db.close(guard))
        }
        Err(fault) => Err(fault),
    }
}

/// Lowers the last serial of a guard, and returns its first one.
#[tactic(auto, using(crate::proofs::Reported::reported_fault))]
fn retire_over<G: Register>(alloc: Global, register: &mut G, last: u64) -> Result<u64, StationFault>
    ensures honest { G.is_honest register.new → G.is_honest register.old }
    ensures retires { G.is_honest register.new → (s : State) → G.keeps register.old s
        → Retires last s (Leaves G.Register (OfRetiring last) register.old register.new s) result }
    ensures reported { PassesOn (G.reported register.old) (G.reported register.new) result }
    ensures before { G.is_honest register.new → OnErr result (G.is_as_before register.old register.new) }
{
    match register.scope() {
        Ok(scope) => match retire(alloc, register, last) {
            Ok(()) => Ok(scope.first),
            Err(fault) => Err(StationFault::from(fault)),
        },
        Err(fault) => Err(StationFault::from(fault)),
    }
}

/// Lowers the last serial of the guard in a file, and returns its first one.
///
/// # Errors
///
/// `BadSerials` or `SerialApproved`, or why the guard wasn't opened or didn't answer.
pub fn retire_in<G: Register, D: GuardFile<Guard = G>>(
    alloc: Global,
    db: &mut D,
    path: &str,
    last: u64,
) -> Result<u64, StationFault>
    requires { KeepsFiles G.Register D.GuardFile }
    ensures { RunsIn G.Register D.GuardFile db.old db.new path.now (OfRetiring last) (Retires last) (Unit {0})
        result }
{
    match db.open(alloc, path) {
        Ok(guard) => {
            let mut guard = guard;
            let done = retire_over(alloc, &mut guard, last);
            closed(done, db.close(guard))
        }
        Err(fault) => Err(fault),
    }
}

/// Makes a guard with this scope in a file.
///
/// # Errors
///
/// Why none was made, or why its file couldn't be closed properly.
pub fn make_in<G: Register, D: GuardFile<Guard = G>>(
    alloc: Global,
    db: &mut D,
    path: &str,
    scope: &Scope,
) -> Result<(), StationFault>
    requires lawful { IsTrue (are_serials scope.now.first scope.now.last) }
    requires keeps { KeepsFiles G.Register D.GuardFile }
    ensures { MakesIn G.Register D.GuardFile db.old db.new path.now scope.now result }
{
    match db.make(alloc, path, scope) {
        Ok(guard) => db.close(guard),
        Err(fault) => Err(fault),
    }
}
