// What is refused for its form: each function answers what passed, or the first refusal that holds.
ghost use Rattle.std.specs.Prelude.{cond, not, ◌||◌, ◌≡◌, eqb, IfOk, MatchResult};
ghost use Rattle.refusals.specs.Refusals.{number, refused};
ghost use Rattle.uplink.specs.Build.{length_wrong, build_refusal};
ghost use Rattle.uplink.specs.Recover.{marks_good, zeros, silent, recover_refusal};
ghost use Rattle.uplink.specs.Parts.{sizes_refusal, HeardOf, Passed};

use interleave::Heard;
use refusals::Refusal;

// A told length that is 20 to 255; or refusal 1.
fn told(l: u64) -> Result<usize, Refusal>
    ensures refusal { refused result ≡ cond (length_wrong l) 1 0 }
    ensures same { IfOk result (λ told. told ≡ l) }
{
    if l < 20 || 255 < l {
        return Err(Refusal::Length);
    }
    Ok(l as usize)
}

// Whether a message can be built; or the first refusal that holds of 1, 2, 3, 4.
pub fn may_build(l: u64, mode: u64, size: usize, room: usize) -> Result<(), Refusal>
    ensures { refused result ≡ build_refusal l mode size room }
{
    let told = told(l)?;
    if size != told {
        return Err(Refusal::Size);
    }
    if room < 36 * (told + 4) {
        return Err(Refusal::Room);
    }
    if 3 < mode {
        return Err(Refusal::Mode);
    }
    Ok(())
}

// What was heard of a frame; or the first refusal that holds of 1, 2.
pub fn sized<'a>(l: u64, marks: &'a [u8], values: &'a [u8]) -> Result<Heard<'a>, Refusal>
    ensures refusal { refused result ≡ sizes_refusal l marks.now values.now }
    ensures heard { IfOk result (HeardOf l marks.now values.now) }
{
    let l = told(l)?;
    if marks.len() != l + 4 || values.len() != 24 * (l + 4) {
        return Err(Refusal::Size);
    }
    Ok(Heard { l, marks, values })
}

// Every mark is 0 or 1.
#[tactic(auto, unfolding(crate::specs::Recover::marks_good))]
pub fn marks_good(marks: &[u8]) -> bool
    ensures { result ≡ marks_good marks.now }
{
    marks.iter().all(|mark| *mark <= 1)
}

// Every value is zero.
#[tactic(auto, unfolding(crate::specs::Recover::zeros))]
fn all_zero(values: &[u8]) -> bool
    ensures { result ≡ zeros values.now }
{
    values.iter().all(|v| *v == 0)
}

// A sub-packet is lost, or all its values are zero.
fn packet_silent(mark: u8, values: &[u8]) -> bool
    ensures { result ≡ (not (eqb mark 1) || zeros values.now) }
{
    mark != 1 || all_zero(values)
}

// No sub-packet that is marked 1 has a value other than zero.
fn is_silent(heard: Heard) -> bool
    ensures { result ≡ silent heard.entry.marks.now heard.entry.values.now }
{
    for (s, mark) in heard.marks.iter().enumerate() {
        let from = 24 * s;
        if !packet_silent(*mark, &heard.values[from..from + 24]) {
            return false;
        }
    }
    true
}

// What was heard of a frame, and something was; or the first refusal that holds of 1, 2, 3, 5, 6.
pub fn may_recover<'a>(
    l: u64,
    marks: &'a [u8],
    values: &'a [u8],
    room: usize,
) -> Result<Heard<'a>, Refusal>
    ensures { MatchResult result (Passed l marks.now values.now room)
        (λ refusal. recover_refusal l marks.now values.now room ≡ number refusal) }
{
    let heard = sized(l, marks, values)?;
    if room < heard.l {
        return Err(Refusal::Room);
    }
    if !marks_good(marks) {
        return Err(Refusal::Mark);
    }
    if is_silent(heard) {
        return Err(Refusal::Silence);
    }
    Ok(heard)
}
