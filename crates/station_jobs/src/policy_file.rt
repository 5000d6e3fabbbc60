//! Reading policies from files.

ghost use Rattle.std.specs.Prelude.{◌≡◌, ◌≢◌, ◌≤◌, ◌++◌, Err, IfErr, IfOk, IfSome, Ok, OnOk, ℕ, length};
ghost use Rattle.guard.specs.Policies.{policy_at};
ghost use Rattle.station_jobs.specs.Faults.{IsOfAFile, IsOfAPolicy, IsOfAPrintedPolicy};
ghost use Rattle.station_jobs.specs.Judging.{IsBadPolicyAt, IsPolicyAt};
ghost use Rattle.station_jobs.specs.Policy.{PrintsFirstNames, PrintsNames, names_text};

use crate::file_reader::read_whole;
use crate::output::print;
use crate::station_fault::StationFault;
use crate::surroundings::Surroundings;
use guard::{LONGEST_POLICY, Policy};
use message::Department;
use std::alloc::Global;
use std::io::{Read, Write};
use text::NoMemory;

/// A policy, with the text from which it was read.
#[derive(Drop)]
pub(crate) struct PolicyText {
    text: Vec<u8>,
    pub policy: Policy,
}

/// The bytes of a policy's file.
fn policy_bytes<F: Read + Drop>(alloc: Global, file: F) -> Result<Vec<u8>, StationFault>
    ensures size { IfOk result (λ v. length v.items ≤ 1048576) }
    ensures whole { IfOk result (λ v. IfSome (F.remaining file) (λ bytes. v.items ≡ bytes)) }
    ensures only { IfErr result IsOfAFile }
{
    read_whole(alloc, file, LONGEST_POLICY as u64)
}

/// The policy in a text.
fn policy_of(alloc: Global, text: Vec<u8>) -> Result<PolicyText, StationFault>
    requires { length text.items ≤ 1048576 }
    ensures read { IfOk result (λ p. (p.text.items ≡ text.items) × (policy_at text.items ≡ Ok p.policy)) }
    ensures bad { (line : ℕ) → result ≡ Err (StationFault.BadPolicy line) → policy_at text.items ≡ Err line }
    ensures only { IfErr result IsOfAPolicy }
{
    match Policy::read(alloc, text.as_slice()) {
        Ok(policy) => Ok(PolicyText { text, policy }),
        Err(fault) => Err(StationFault::from(fault)),
    }
}

/// The policy in a file.
#[tactic(auto, using(crate::proofs::Causes::of_a_file))]
pub fn read_policy<F: Read + Drop>(alloc: Global, file: F) -> Result<PolicyText, StationFault>
    ensures text { IfOk result (λ p. policy_at p.text.items ≡ Ok p.policy) }
    ensures read { IfOk result (λ p. IfSome (F.remaining file) (λ bytes. policy_at bytes ≡ Ok p.policy)) }
    ensures bad { (line : ℕ) → result ≡ Err (StationFault.BadPolicy line)
        → IfSome (F.remaining file) (λ bytes. policy_at bytes ≡ Err line) }
    ensures only { IfErr result IsOfAPolicy }
{
    match policy_bytes(alloc, file) {
        Ok(bytes) => policy_of(alloc, bytes),
        Err(fault) => Err(fault),
    }
}

/// The policy that is in a file now. It is parsed again only if the file's bytes differ from the known ones.
#[tactic(auto, using(crate::proofs::Causes::of_a_file))]
pub fn refreshed<F: Read + Drop, P: Surroundings<File = F>>(
    alloc: Global,
    around: &P,
    path: &str,
    known: PolicyText,
) -> Result<PolicyText, StationFault>
    requires { policy_at known.text.items ≡ Ok known.policy }
    ensures text { IfOk result (λ p. policy_at p.text.items ≡ Ok p.policy) }
    ensures read { IfOk result (λ p. IsPolicyAt P.Surroundings around.now F.remaining path.now p.policy) }
    ensures bad { (line : ℕ) → result ≡ Err (StationFault.BadPolicy line)
        → IsBadPolicyAt P.Surroundings around.now F.remaining path.now line }
    ensures only { IfErr result IsOfAPolicy }
{
    let file = around.open(path)?;
    let bytes = policy_bytes(alloc, file)?;
    if bytes.as_slice() == known.text.as_slice() {
        return Ok(known);
    }
    policy_of(alloc, bytes)
}

/// Appends each department's name as a line.
fn put_names(text: &mut Vec<u8>, departments: &[Department]) -> Result<(), NoMemory>
    ensures { OnOk result (text.new.items ≡ text.old.items ++ names_text departments.now) }
{
    for department in departments {
        text.extend_from_slice(department.name.as_slice())?;
        text.push(b'\n')?;
    }
    Ok(())
}

/// The names of a policy's departments, one per line.
fn names_of(alloc: Global, policy: &Policy) -> Result<Vec<u8>, NoMemory>
    ensures { IfOk result (λ text. text.items ≡ names_text policy.now) }
{
    let mut text = Vec::new(alloc);
    put_names(&mut text, policy.departments())?;
    Ok(text)
}

/// Prints the names of the departments in a policy's file, in order.
///
/// # Errors
///
/// The fault of the policy, in which case nothing is printed; `NoMemory`; or `Write`.
pub fn print_policy<F: Read + Drop, W: Write>(
    alloc: Global,
    file: F,
    out: &mut W,
) -> Result<(), StationFault>
    ensures ok { OnOk result (IfSome (F.remaining file) (λ bytes. PrintsNames bytes (W.contents out.old)
        (W.contents out.new))) }
    ensures bad { (line : ℕ) → result ≡ Err (StationFault.BadPolicy line)
        → IfSome (F.remaining file) (λ bytes. policy_at bytes ≡ Err line) }
    ensures only { IfErr result IsOfAPrintedPolicy }
    ensures silent { IfErr result (λ e. e ≢ StationFault.Write → out.new ≡ out.old) }
    ensures cut { result ≡ Err StationFault.Write → IfSome (F.remaining file) (λ bytes. PrintsFirstNames bytes
        (W.contents out.old) (W.contents out.new)) }
{
    match read_policy(alloc, file) {
        Ok(known) => {
            let names = names_of(alloc, &known.policy);
            drop(known);
            match names {
                Ok(names) => print(out, names.as_slice()),
                Err(_) => Err(StationFault::NoMemory),
            }
        }
        Err(fault) => Err(fault),
    }
}
