// The log of scores: records of 47 bytes, one behind the other. A power cut leaves a rest of fewer bytes, which the next append
// writes over.
#![tactic(auto)]

ghost use Rattle.std.specs.Prelude.{◌≡◌, ◌+◌, ◌*◌, ◌≤◌, length, IfOk};
ghost use Rattle.answer.specs.Answer.{answer_of, fault_in, answered, lent_after};
ghost use Rattle.answer.specs.Refusal.{◌or_else◌};
ghost use Rattle.octets.specs.Octets.{overwritten};
ghost use Rattle.score_log.specs.Records.{record_long, pattern_long, pattern_count, patterns, pattern_bytes, record_bytes, pattern_fields, later_fault, bytes_fault};
ghost use Rattle.score_log.specs.Log.{whole_records, torn_rest, least_after, log_fault, joined, number_one, patterns_one, cut_one, numbers_of, patterns_of, cuts_of, scan_of, read_fault, read_into, new_fault, append_of, lent_after_append};
ghost use Rattle.score_log.specs.Needs.{Roomy};

use answer::Refusal;

// A record: the frame's number, the five numbers of its score, and 1 for a cut, 0 for none. (A number, since 13 answers every other one.)
#[derive(Clone, Copy, Debug, PartialEq)]
pub struct Record {
    pub number: u32,
    pub inter_cost: f64,
    pub imp_block_cost: f64,
    pub backward_adjusted_cost: f64,
    pub forward_adjusted_cost: f64,
    pub threshold: f64,
    pub cut: u32,
}

// How long a record is, and where its number, its patterns and its cut begin; how long a pattern is, and how many there are. (The log's bytes are a
// promise to other readers, docs/FORMATS.md: each place has its name.)
const RECORD: usize = 47;

const NUMBER: usize = 2;

const PATTERNS: usize = 6;

const PATTERN: usize = 8;

const COUNT: usize = 5;

const CUT: usize = 46;

// The mark, a record's first bytes.
const MARK: [u8; NUMBER] = [0x53, 0x43];

// The refusal of a cut and a number, where the least number that rises is given: 13 or 14.
#[tactic(auto, using(answer::proofs::Laws::refusals, crate::proofs::Places::later_cut))]
fn later_fault(cut: u32, number: u32, least: u64) -> Result<(), Refusal>
    ensures { fault_in result ≡ later_fault cut number least }
{
    if cut > 1 {
        return Err(Refusal::BadCut);
    }
    if u64::from(number) < least {
        return Err(Refusal::NotRising);
    }
    Ok(())
}

// The refusal of a record by its bytes: 12, 13 or 14.
fn record_fault(bytes: &[u8; RECORD], least: u64) -> Result<(), Refusal>
    ensures { fault_in result ≡ bytes_fault least bytes.now }
{
    if !bytes.starts_with(&MARK) {
        return Err(Refusal::NoMark);
    }
    later_fault(u32::from(bytes[CUT]), octets::u32_at(bytes, NUMBER), least)
}

// The least number that rises behind a log's records, or the refusal of the earliest record at fault.
fn checked(log: &[u8]) -> Result<u64, Refusal>
    ensures fault { fault_in result ≡ log_fault log.now }
    ensures least { IfOk result (λ n. n ≡ least_after log.now (whole_records log.now)) }
{
    let (records, _) = log.as_chunks::<RECORD>();
    let mut least = 0;
    for record in records {
        record_fault(record, least)?;
        least = u64::from(octets::u32_at(record, NUMBER)) + 1;
    }
    Ok(least)
}

// What refuses a record behind a log: 12, 13 or 14 of the records that are there, 13 or 14 of the new one.
#[tactic(auto, using(answer::proofs::Laws::refusals), unfolding(crate::specs::Log::new_fault))]
fn new_fault(log: &[u8], r: Record) -> Result<(), Refusal>
    ensures { fault_in result ≡ log_fault log.now or_else new_fault log.now r }
{
    let least = checked(log)?;
    later_fault(r.cut, r.number, least)
}

// The five patterns of a record, to as many places. By index: of what is written through `iter_mut` and `zip` a proof knows the
// length alone.
fn take_patterns(bytes: &[u8; RECORD], bits: &mut [u64])
    requires { length bits.old ≡ pattern_count }
    ensures { bits.new ≡ pattern_fields bytes.now }
{
    let (patterns, _) = bytes[PATTERNS..CUT].as_chunks::<PATTERN>();
    for (j, pattern) in patterns.iter().enumerate() {
        bits[j] = octets::u64_at(pattern, 0);
    }
}

// Each record to the lists, by index for the same reason.
fn take_records(log: &[u8], numbers: &mut [u32], bits: &mut [u64], cuts: &mut [u8])
    requires { Roomy (whole_records log.now) log.now numbers.old bits.old cuts.old }
    ensures numbers_after { numbers.new ≡ overwritten 0 (numbers_of log.now) numbers.old }
    ensures bits_after { bits.new ≡ overwritten 0 (patterns_of log.now) bits.old }
    ensures cuts_after { cuts.new ≡ overwritten 0 (cuts_of log.now) cuts.old }
{
    let (records, _) = log.as_chunks::<RECORD>();
    for (k, record) in records.iter().enumerate() {
        numbers[k] = octets::u32_at(record, NUMBER);
        take_patterns(record, &mut bits[k * COUNT..(k + 1) * COUNT]);
        cuts[k] = record[CUT];
    }
}

// The five floats of a record, as their patterns, to as many places. (By name, in the order of `ScenecutResult`.)
fn put_patterns(bytes: &mut [u8], r: Record)
    requires { length bytes.old ≡ pattern_count * pattern_long }
    ensures { bytes.new ≡ pattern_bytes (patterns r) }
{
    octets::put_f64(bytes, 0, r.inter_cost);
    octets::put_f64(bytes, PATTERN, r.imp_block_cost);
    octets::put_f64(bytes, 2 * PATTERN, r.backward_adjusted_cost);
    octets::put_f64(bytes, 3 * PATTERN, r.forward_adjusted_cost);
    octets::put_f64(bytes, 4 * PATTERN, r.threshold);
}

// A record's bytes.
fn put_record(bytes: &mut [u8], r: Record)
    requires bytes_len { length bytes.old ≡ record_long }
    requires cut_bound { r.cut ≤ 1 }
    ensures { bytes.new ≡ record_bytes r }
{
    bytes[..NUMBER].copy_from_slice(&MARK);
    octets::put_u32(bytes, NUMBER, r.number);
    put_patterns(&mut bytes[PATTERNS..CUT], r);
    bytes[CUT] = r.cut as u8;
}

// How many whole records there are; the length of the rest is in `torn`.
#[tactic(auto, using(answer::proofs::Laws::answers, answer::proofs::Laws::lents))]
pub fn scan(log: &[u8], torn: &mut u64) -> Result<u64, Refusal>
    ensures result_value { answer_of result ≡ scan_of log.now }
    ensures torn_after { torn.new ≡ lent_after (log_fault log.now) (torn_rest log.now) torn.old }
{
    checked(log)?;
    let (records, rest) = log.as_chunks::<RECORD>();
    *torn = rest.len() as u64;
    Ok(records.len() as u64)
}

// The same, and each record: its number, its five patterns and its cut, in lists that have room for all. (Three lists: C lends them, and the
// clauses name each.)
#[tactic(auto, using(answer::proofs::Laws::answers, answer::proofs::Laws::lents, answer::proofs::Laws::refusals, answer::proofs::Laws::answer_refused), unfolding(crate::specs::Log::read_fault))]
pub fn read(
    log: &[u8],
    numbers: &mut [u32],
    bits: &mut [u64],
    cuts: &mut [u8],
    torn: &mut u64,
) -> Result<u64, Refusal>
    ensures result_value { answer_of result ≡ answered (read_fault log.now numbers.old bits.old cuts.old) (whole_records log.now) }
    ensures numbers_after { numbers.new ≡ read_into (read_fault log.now numbers.old bits.old cuts.old) (numbers_of log.now) numbers.old }
    ensures bits_after { bits.new ≡ read_into (read_fault log.now numbers.old bits.old cuts.old) (patterns_of log.now) bits.old }
    ensures cuts_after { cuts.new ≡ read_into (read_fault log.now numbers.old bits.old cuts.old) (cuts_of log.now) cuts.old }
    ensures torn_after { torn.new ≡ lent_after (read_fault log.now numbers.old bits.old cuts.old) (torn_rest log.now) torn.old }
{
    checked(log)?;
    let (records, rest) = log.as_chunks::<RECORD>();
    let n = records.len();
    if numbers.len() < n || bits.len() < n * COUNT || cuts.len() < n {
        return Err(Refusal::LogRoom);
    }
    take_records(log, numbers, bits, cuts);
    *torn = rest.len() as u64;
    Ok(n as u64)
}

// A record behind the last whole one of the first `used` bytes, over a torn rest: the new used length. (List and
// count: C lends both, and 15 answers a count that is larger.)
pub fn append(log: &mut [u8], used: usize, r: Record) -> Result<u64, Refusal>
    ensures result_value { answer_of result ≡ append_of log.old used r }
    ensures log_after { log.new ≡ lent_after_append log.old used r }
{
    if log.len() < used {
        return Err(Refusal::LogRoom);
    }
    new_fault(&log[..used], r)?;
    let at = used / RECORD * RECORD;
    let end = at + RECORD;
    if log.len() < end {
        return Err(Refusal::LogRoom);
    }
    put_record(&mut log[at..end], r);
    Ok(end as u64)
}
