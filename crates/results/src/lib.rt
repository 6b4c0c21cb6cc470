// The numbers that the exported functions give back.
#![tactic(auto)]

ghost use Rattle.std.specs.Prelude.{◌≡◌, ◌*◌, ◌≤◌, ◌^◌, IfOk};
ghost use Rattle.model.specs.Sizes.{greatest_session, most_records};
ghost use Rattle.record.specs.RefusalNumber.{outcome_number};
ghost use Rattle.results.specs.Results.{run_result, command_result, answer_result, mend_result};
ghost use Rattle.results.specs.Results.{run_number, reply_number, place_number, mended_number};

use record::refusal::{Refusal, outcome_number};

// helper: the refusal's number, or 0, with 2^8 times a length.
pub fn result_number(outcome: Result<(), Refusal>, length: usize) -> u64
    requires { length ≤ 2 ^ 32 }
    ensures { result ≡ run_result (outcome_number outcome) length }
{
    let refusal = u64::from(outcome_number(outcome));
    let long = length as u64;
    (long << 8) + refusal
}

// helper: the refusal's number, or 0, with 2^8 times a length, 2^24 times the tries left and 2^32 times the kind that is answered.
pub fn command_number(outcome: Result<(), Refusal>, length: usize, tries: u8, kind: u8) -> u64
    requires { length ≤ 2 ^ 32 }
    ensures { result ≡ command_result (outcome_number outcome) length tries kind }
{
    let refusal = u64::from(outcome_number(outcome));
    let long = length as u64;
    let left = u64::from(tries);
    let answered = u64::from(kind);
    refusal + (long << 8) + (left << 24) + (answered << 32)
}

// helper: the refusal's number, or 0, with 2^8 times an answer's length, 2^24 times the headers that were read and 2^40 times where it begins.
pub fn answer_number(
    outcome: Result<(), Refusal>,
    length: usize,
    headers: usize,
    from: usize,
) -> u64
    requires { (length ≤ 256) × (headers ≤ most_records) × (from ≤ 260 * most_records) }
    ensures { result ≡ answer_result (outcome_number outcome) length headers from }
{
    let refusal = u64::from(outcome_number(outcome));
    let long = length as u64;
    let many = headers as u64;
    let start = from as u64;
    refusal + (long << 8) + (many << 24) + (start << 40)
}

// helper: the refusal's number, or 0, with 2^8 times a count and 2^32 times where the records start.
pub fn mend_number(outcome: Result<(), Refusal>, count: usize, start: usize) -> u64
    requires { (count ≤ most_records) × (start ≤ greatest_session) }
    ensures { result ≡ mend_result (outcome_number outcome) count start }
{
    let refusal = u64::from(outcome_number(outcome));
    let many = count as u64;
    let from = start as u64;
    refusal + (many << 8) + (from << 32)
}

// ---- of what a call gives back

// helper: of a log's length or a session's.
pub fn run_number(ran: Result<usize, Refusal>) -> u64
    requires { IfOk ran (λ length. length ≤ 2 ^ 32) }
    ensures { result ≡ run_number ran }
{
    match ran {
        Ok(length) => result_number(Ok(()), length),
        Err(why) => result_number(Err(why), 0),
    }
}

// helper: of a response's length, with the tries and the kind.
pub fn reply_number(replied: Result<usize, Refusal>, tries: u8, kind: u8) -> u64
    requires { IfOk replied (λ length. length ≤ 2 ^ 32) }
    ensures { result ≡ reply_number replied tries kind }
{
    match replied {
        Ok(length) => command_number(Ok(()), length, tries, kind),
        Err(why) => command_number(Err(why), 0, tries, kind),
    }
}

// helper: of where an answer begins and how long it is, with the headers.
pub fn place_number(found: Result<(usize, usize), Refusal>, headers: usize) -> u64
    requires place { IfOk found (λ place. (place.0 ≤ 260 * most_records) × (place.1 ≤ 256)) }
    requires headers { headers ≤ most_records }
    ensures { result ≡ place_number found headers }
{
    match found {
        Ok((from, length)) => answer_number(Ok(()), length, headers, from),
        Err(why) => answer_number(Err(why), 0, headers, 0),
    }
}

// helper: of how many records there are and where they start.
pub fn mended_number(mended: Result<(usize, usize), Refusal>) -> u64
    requires { IfOk mended (λ records. (records.0 ≤ most_records) × (records.1 ≤ greatest_session)) }
    ensures { result ≡ mended_number mended }
{
    match mended {
        Ok((count, start)) => mend_number(Ok(()), count, start),
        Err(why) => mend_number(Err(why), 0, 0),
    }
}
