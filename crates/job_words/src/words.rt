//! What the program's words ask for.
ghost use Rattle.std.specs.Prelude.{◌≡◌, ◌≤◌, ◌-◌, map, string_bytes, IfOk, IfErr, All};
ghost use Rattle.job_words.specs.Forms.{shapes, IsReadable};
ghost use Rattle.job_words.specs.Words.{table_reading, plain_job_of, keeps_of, form_words, count_before, job_of, IsReadingOf, IsBadWord};
ghost use Rattle.job_words.specs.Request.{IsSoundRequest};
ghost use Rattle.job_words.specs.Code.{form_given};
ghost use Rattle.job_words.specs.Request.{job_request, request_result};

use crate::flags::skip;
use crate::forms::{FORMS, Form};
use crate::jobs::Job;

// What the words ask for by the first of these forms that they have,
// or the place, counted from 1, of the first word that no form takes.
fn read_by<'a>(forms: &[Form], words: &'a [String]) -> Result<Job<'a>, u32>
    requires { All IsReadable (map form_given forms.now) }
    ensures reading { request_result result ≡ table_reading (shapes (map form_given forms.now))
        (map string_bytes words.now) }
    ensures few { IfErr result (λ place. place ≤ 113) }
{
    let mut place = 1;
    for form in forms {
        match form.read(words) {
            Ok(job) => return Ok(job),
            Err(bad) => place = place.max(bad),
        }
    }
    Err(place as u32)
}

/// Whether the first word is `-n`, by which a command is refused that would write a file that is there.
pub fn keeps(words: &[String]) -> bool
    ensures { result ≡ keeps_of (map string_bytes words.now) }
{
    match words {
        [] => false,
        [first, ..] => first.as_str() == "-n",
    }
}

// How many words stand before those of the form.
fn count_before(words: &[String]) -> u32
    ensures count { result ≡ count_before (map string_bytes words.now) }
    ensures few { result ≤ 1 }
{
    if keeps(words) { 1 } else { 0 }
}

/// What the words ask for. It allocates no memory.
///
/// The words have a form, or are `-n` and then a form; what is asked for is the same. The forms are `list IN`; `info IN`;
/// `gain [-s s] [-w] -g N IN OUT` and `gain [-s s] [-w] -l C N IN OUT`, with the two options in either order; `gain -u IN OUT`;
/// `cut [--least] IN FROM TO OUT`; `cut --exact IN FROM TO OUT`; `pack IN OUT`, `pack --constant B IN OUT`,
/// `pack --floor B IN OUT` and `pack --best IN OUT`; `split IN PREFIX P1 P2 [P3 to P100]`; `split IN PREFIX -c CUE`;
/// `split --exact IN PREFIX P1 P2 [P3 to P100]`; `split --exact IN PREFIX -c CUE`; `join [--seamless] OUT IN1 [IN2 to IN64]`;
/// `drill SEED COUNT`; `fade [--back] IN OUT SHEET`; `salvage IN OUT`; `remove IN OUT FROM TO [FROM TO ..]`, with 1 to 50 pairs of
/// FROM and TO; and `--help`, `-h` and `--version`, each alone. C is `0` or `1`. N is an optional `+` or `-` and one to three
/// digits, from -255 to 255. B is a bit rate in kbit/s, one to three digits. SEED is a number up to 2,147,483,647 of one to ten
/// digits, and COUNT one from 1 to 20,000 of one to five. FROM, TO and P1 to P100 are positions as `Place::read` has them, after
/// `--exact` and in `remove` places among the samples as `ExactPlace::read` has them. All other words in capital letters are
/// names: a name isn't empty and doesn't begin with `-`.
///
/// # Errors
/// Where the words have no form, the place, counted from 1 and with `-n`, of the first word that no form takes, or the number of
/// words plus 1 where a word is missing.
pub fn job(words: &[String]) -> Result<Job<'_>, u32>
    ensures exact { request_result result ≡ job_of (map string_bytes words.now) }

    // As relations, over the words behind `-n`: the form that they have, and their longest prefix that follows a form.
    ensures read { IfOk result
        (λ job. IsReadingOf (form_words (map string_bytes words.now)) (job_request job)) }
    ensures bad { IfErr result (λ place. IsBadWord (form_words (map string_bytes words.now))
        (place - count_before (map string_bytes words.now))) }

    // What is asked for is in range, as the commands require.
    ensures sound { IfOk result (λ job. IsSoundRequest (job_request job)) }
{
    let front = count_before(words);
    match read_by(&FORMS, skip(words, front as usize)) {
        Ok(job) => Ok(job),
        Err(place) => Err(place + front),
    }
}
