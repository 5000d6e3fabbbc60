//! Bodies from an input, in batches.

ghost use Rattle.std.specs.Prelude.{◌≡◌, ◌≢◌, ◌≤◌, ◌++◌, ◌∷◌, [], IfErr, IfOk, IfSome, None, Ok, All, codes, length, option_copied, true};
ghost use Rattle.std.specs.IoError.{error_kind};
ghost use Rattle.std.specs.Io.KnownBytes.{Consumes, IsAtEnd};
ghost use Rattle.guard.specs.Machine.{State};
ghost use Rattle.guard.specs.Policies.{policy_at};
ghost use Rattle.message.specs.Reading.{rest_after};
ghost use Rattle.station_jobs.specs.Faults.{IsOfAnInput, IsOfBodies, IsOfJudging};
ghost use Rattle.station_jobs.specs.Input.{HasLength, JudgesInput, JudgesNext, TakesBatch, TakesLine, body_text, number_line};
ghost use Rattle.station_jobs.specs.Judging.{AsksGiven, AsksOf, IsBadPolicyAt, Judges};
ghost use Rattle.station_jobs.specs.Leaving.{Leaves, OfBodies};
ghost use Rattle.station_jobs.specs.Reported.{PassesOn};
ghost use Rattle.station_jobs.specs.Steps.{done_of};
ghost use Rattle.std.specs.List.{flat_map};

use crate::file_reader::file_fault;
use crate::judging::judge_bodies;
use crate::policy_file::{PolicyText, refreshed};
use crate::station_fault::StationFault;
use crate::surroundings::Surroundings;
use guard::{LONGEST_BODY, Policy, Register, Window};
use std::alloc::Global;
use std::io;
use std::io::{BufRead, ErrorKind, Read, Write};
use text::Text;
use values::read_decimal;

/// The most bodies of a batch.
const MOST_BODIES: u64 = 64;

/// The fault of an input that can't be read, or ends too early.
fn input_fault(error: &io::Error) -> StationFault
    ensures { IsOfAnInput result }
{
    match error.kind() {
        ErrorKind::UnexpectedEof => StationFault::Input,
        _ => file_fault(error),
    }
}

/// The next line of an input, with its LF if it has one; empty at the end of the input.
#[tactic(auto, using(crate::proofs::Causes::input_of_a_file))]
fn next_line<I: BufRead>(alloc: Global, input: &mut I) -> Result<Vec<u8>, StationFault>
    ensures taken { IfOk result (λ line. TakesLine (I.remaining input.old) (I.remaining input.new) line.items) }
    ensures only { IfErr result IsOfAnInput }
{
    let mut line = Vec::new(alloc);
    match input.read_until(b'\n', &mut line) {
        Ok(_) => Ok(line),
        Err(error) => Err(file_fault(&error)),
    }
}

/// A line without its LF, if it has one.
fn without_end(line: &[u8]) -> Option<&[u8]>
    ensures { IfSome result (λ text. line.now ≡ text.now ++ 10 ∷ []) }
{
    match line {
        [text @ .., b'\n'] => Some(text),
        _ => None,
    }
}

/// The text after the word that a batch begins with.
fn after_word(line: &[u8]) -> Option<&[u8]>
    ensures { option_copied result ≡ rest_after (codes "judge ") line.now }
{
    line.strip_prefix(b"judge ")
}

/// The number in a line, 1 to `most`.
fn number_in(line: &[u8], most: u64) -> Option<u64>
    ensures line { IfSome result (λ n. line.now ≡ number_line n) }
    ensures range { IfSome result (λ n. (1 ≤ n) × (n ≤ most)) }
{
    match read_decimal(without_end(line)?) {
        Some(number) if 1 <= number && number <= most => Some(number),
        _ => None,
    }
}

/// The number of bodies in the first line of a batch.
#[tactic(auto, using(crate::proofs::Batches::after_is))]
fn count_in(line: &[u8]) -> Option<u64>
    ensures line { IfSome result (λ n. line.now ≡ codes "judge " ++ number_line n) }
    ensures range { IfSome result (λ n. (1 ≤ n) × (n ≤ 64)) }
{
    number_in(after_word(line)?, MOST_BODIES)
}

/// So many bytes of an input.
fn next_bytes<I: BufRead>(
    alloc: Global,
    input: &mut I,
    size: usize,
) -> Result<Vec<u8>, StationFault>
    ensures taken { IfOk result (λ bytes. Consumes (I.remaining input.old) (I.remaining input.new) bytes.items) }
    ensures size { IfOk result (λ bytes. length bytes.items ≡ size) }
    ensures only { IfErr result IsOfAnInput }
{
    let mut bytes = match vec![in alloc; 0_u8; size] {
        Ok(bytes) => bytes,
        Err(_) => return Err(StationFault::NoMemory),
    };
    match input.read_exact(bytes.as_mut_slice()) {
        Ok(()) => Ok(bytes),
        Err(error) => Err(input_fault(&error)),
    }
}

/// The next body of a batch.
fn next_body<I: BufRead>(alloc: Global, input: &mut I) -> Result<Text, StationFault>
    ensures taken { IfOk result (λ body. Consumes (I.remaining input.old) (I.remaining input.new) (body_text body)) }
    ensures size { IfOk result HasLength }
    ensures only { IfErr result IsOfAnInput }
{
    match next_line(alloc, input) {
        Ok(line) => match number_in(line.as_slice(), LONGEST_BODY as u64) {
            Some(size) => match next_bytes(alloc, input, size as usize) {
                Ok(bytes) => Ok(Text::from_vec(bytes)),
                Err(fault) => Err(fault),
            },
            None => Err(StationFault::Input),
        },
        Err(fault) => Err(fault),
    }
}

/// So many bodies of a batch.
fn next_bodies<I: BufRead>(
    alloc: Global,
    input: &mut I,
    count: u64,
) -> Result<Vec<Text>, StationFault>
    ensures taken { IfOk result (λ bodies. Consumes (I.remaining input.old) (I.remaining input.new)
        (flat_map body_text bodies.items)) }
    ensures count { IfOk result (λ bodies. length bodies.items ≡ count) }
    ensures sizes { IfOk result (λ bodies. All HasLength bodies.items) }
    ensures only { IfErr result IsOfAnInput }
{
    let mut bodies = Vec::new(alloc);
    for _at in 0..count {
        match next_body(alloc, input) {
            Ok(body) => match bodies.push(body) {
                Ok(()) => {}
                Err(refused) => {
                    drop(refused);
                    return Err(StationFault::NoMemory);
                }
            },
            Err(fault) => return Err(fault),
        }
    }
    Ok(bodies)
}

/// The next batch of an input, or `None` at its end.
fn next_batch<I: BufRead>(alloc: Global, input: &mut I) -> Result<Option<Vec<Text>>, StationFault>
    ensures taken { IfOk result (λ batch. IfSome batch (λ bodies. TakesBatch (I.remaining input.old)
        (I.remaining input.new) bodies.items)) }
    ensures end { result ≡ Ok None → IsAtEnd (I.remaining input.old) }
    ensures only { IfErr result IsOfAnInput }
{
    match next_line(alloc, input) {
        Ok(line) => {
            if line.is_empty() {
                return Ok(None);
            }
            match count_in(line.as_slice()) {
                Some(count) => match next_bodies(alloc, input, count) {
                    Ok(bodies) => Ok(Some(bodies)),
                    Err(fault) => Err(fault),
                },
                None => Err(StationFault::Input),
            }
        }
        Err(fault) => Err(fault),
    }
}

/// Judges bodies at the present time by a policy, and prints the answers.
#[tactic(auto, using(crate::proofs::Causes::bodies_of_a_question))]
fn judge_by<F: Read + Drop, P: Surroundings<File = F>, G: Register, W: Write>(
    alloc: Global,
    around: &P,
    register: &mut G,
    policy: &Policy,
    ahead: u64,
    bodies: &[Text],
    out: &mut W,
) -> Result<(), StationFault>
    requires { length bodies.now ≤ 64 }
    ensures honest { G.is_honest register.new → G.is_honest register.old }
    ensures judges { G.is_honest register.new → (s : State) → G.keeps register.old s
        → Judges 64 s (Leaves G.Register (OfBodies 64
        (AsksOf P.Surroundings around.now F.remaining (λ p. p ≡ policy.now) ahead)) register.old register.new s)
        (AsksOf P.Surroundings around.now F.remaining (λ p. p ≡ policy.now) ahead) bodies.now
        (W.contents out.old) (W.contents out.new) result }
    ensures only { IfErr result IsOfBodies }
    ensures reported { PassesOn (G.reported register.old) (G.reported register.new) result }

    // Nothing is printed beside a fault other than that of the output.
    ensures silent { IfErr result (λ e. e ≢ StationFault.Write → W.contents out.new ≡ W.contents out.old) }
{
    match around.moment() {
        Some(moment) => {
            let window = Window { moment, ahead };
            judge_bodies(alloc, register, policy, window, bodies, out)
        }
        None => Err(StationFault::Clock),
    }
}

/// Judges the bodies of a batch by the policy that its file has now, and prints the answers. Returns the policy.
#[tactic(auto, using(crate::proofs::Causes::judging_of_bodies))]
fn judge_batch<F: Read + Drop, P: Surroundings<File = F>, G: Register, W: Write>(
    alloc: Global,
    around: &P,
    register: &mut G,
    policy: &str,
    ahead: u64,
    known: PolicyText,
    bodies: &[Text],
    out: &mut W,
) -> Result<PolicyText, StationFault>
    requires known { policy_at known.text.items ≡ Ok known.policy }
    requires short { length bodies.now ≤ 64 }
    ensures honest { G.is_honest register.new → G.is_honest register.old }
    ensures known { IfOk result (λ p. policy_at p.text.items ≡ Ok p.policy) }
    ensures judges { G.is_honest register.new → (s : State) → G.keeps register.old s
        → Judges 64 s (Leaves G.Register (OfBodies 64
        (AsksGiven P.Surroundings around.now F.remaining true policy.now ahead)) register.old register.new s)
        (AsksGiven P.Surroundings around.now F.remaining true policy.now ahead) bodies.now
        (W.contents out.old) (W.contents out.new) (done_of result) }
    ensures only { IfErr result (IsOfJudging (IsBadPolicyAt P.Surroundings around.now F.remaining policy.now)) }
    ensures reported { PassesOn (G.reported register.old) (G.reported register.new) result }

    // Nothing is printed beside a fault other than that of the output.
    ensures silent { IfErr result (λ e. e ≢ StationFault.Write → W.contents out.new ≡ W.contents out.old) }
{
    match refreshed(alloc, around, policy, known) {
        Ok(known) => {
            match judge_by(alloc, around, register, &known.policy, ahead, bodies, out) {
                Ok(()) => Ok(known),
                Err(fault) => Err(fault),
            }
        }
        Err(fault) => Err(fault),
    }
}

/// Judges the bodies of the next batch of an input, in the same way as `judge_batch`. Returns `None` at the input's end.
#[tactic(auto, using(crate::proofs::Causes::judging_of_an_input))]
fn judge_next<F: Read + Drop, P: Surroundings<File = F>, G: Register, I: BufRead, W: Write>(
    alloc: Global,
    around: &P,
    register: &mut G,
    policy: &str,
    ahead: u64,
    known: PolicyText,
    input: &mut I,
    out: &mut W,
) -> Result<Option<PolicyText>, StationFault>
    requires { policy_at known.text.items ≡ Ok known.policy }
    ensures honest { G.is_honest register.new → G.is_honest register.old }
    ensures known { IfOk result (λ p. IfSome p (λ p. policy_at p.text.items ≡ Ok p.policy)) }
    ensures judges { G.is_honest register.new → (s : State) → G.keeps register.old s
        → JudgesNext s (Leaves G.Register (OfBodies 64
        (AsksGiven P.Surroundings around.now F.remaining true policy.now ahead)) register.old register.new s)
        (AsksGiven P.Surroundings around.now F.remaining true policy.now ahead)
        (I.remaining input.old) (I.remaining input.new) (W.contents out.old) (W.contents out.new) result }
    ensures only { IfErr result (IsOfJudging (IsBadPolicyAt P.Surroundings around.now F.remaining policy.now)) }
    ensures reported { PassesOn (G.reported register.old) (G.reported register.new) result }

    // Nothing is printed beside a fault other than that of the output.
    ensures silent { IfErr result (λ e. e ≢ StationFault.Write → W.contents out.new ≡ W.contents out.old) }
{
    match next_batch(alloc, input) {
        Ok(Some(bodies)) => {
            let done = judge_batch(
                alloc,
                around,
                register,
                policy,
                ahead,
                known,
                bodies.as_slice(),
                out,
            );
            drop(bodies);
            match done {
                Ok(known) => Ok(Some(known)),
                Err(fault) => Err(fault),
            }
        }
        Ok(None) => {
            drop(known);
            Ok(None)
        }
        Err(fault) => {
            drop(known);
            Err(fault)
        }
    }
}

/// Judges the bodies of an input, batch by batch, and prints the answers to each before it reads the next. The register
/// keeps what is signed of a batch all at once. The policy's file is read again before each batch. `policy` is its path,
/// `known` what was read from it, and `ahead` the number of seconds ahead.
///
/// # Errors
///
/// The first fault ends it: that of the input, of the policy, or one of those of `judge_files`. Lines printed before it
/// remain.
pub fn judge_batches<F: Read + Drop, P: Surroundings<File = F>, G: Register, I: BufRead, W: Write>(
    alloc: Global,
    around: &P,
    register: &mut G,
    policy: &str,
    ahead: u64,
    known: PolicyText,
    input: &mut I,
    out: &mut W,
) -> Result<(), StationFault>
    requires { policy_at known.text.items ≡ Ok known.policy }
    ensures honest { G.is_honest register.new → G.is_honest register.old }
    ensures judges { G.is_honest register.new → (s : State) → G.keeps register.old s → JudgesInput s
        (Leaves G.Register (OfBodies 64 (AsksGiven P.Surroundings around.now F.remaining true policy.now ahead))
        register.old register.new s) (AsksGiven P.Surroundings around.now F.remaining true policy.now ahead)
        (I.remaining input.old) (W.contents out.old) (W.contents out.new) result }
    ensures only { IfErr result (IsOfJudging (IsBadPolicyAt P.Surroundings around.now F.remaining policy.now)) }
    ensures reported { PassesOn (G.reported register.old) (G.reported register.new) result }
{
    let mut known = known;
    for _turn in 0..u64::MAX {
        match judge_next(alloc, around, register, policy, ahead, known, input, out) {
            Ok(Some(policy)) => known = policy,
            Ok(None) => return Ok(()),
            Err(fault) => return Err(fault),
        }
    }
    Err(StationFault::File)
}
