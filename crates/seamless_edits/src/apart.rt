//! The heads set apart from the streams of the inputs, and the frames that are lost then.
ghost use Rattle.std.specs.Prelude.{◌≡◌, ◌++◌, ◌∷◌, [], if◌then◌else◌, map, vec_items, IfOk, OnOk};
ghost use Rattle.sync_survey.specs.HeadApart.{head_apart};
ghost use Rattle.sync_survey.specs.Faults.{survey_view};
ghost use Rattle.cut_edits.specs.Exact.{survey_without_head};
ghost use Rattle.joined_inputs.specs.Inputs.{input_view};
ghost use Rattle.seamless_edits.specs.Beginnings.{input_without_head};
ghost use Rattle.seamless_edits.specs.LostFrames.{lost_numbers, lost_in_input, lost_from};

use joined_inputs::JoinInput;
use std::alloc::{AllocError, Global};
use sync_survey::{Row, Survey};

/// Adds the number of a frame to these if the frame is lost.
///
/// # Errors
/// If memory runs out.
fn push_lost(number: usize, row: &Row, numbers: &mut Vec<usize>) -> Result<(), AllocError>
    ensures { OnOk result (numbers.new.items
        ≡ numbers.old.items ++ (if row.now.lost then number ∷ [] else [])) }
{
    if row.lost() {
        numbers.push(number)?;
    }
    Ok(())
}

/// The numbers of the lost frames among these, counted from 0.
///
/// # Errors
/// If memory runs out.
fn lost_numbers(alloc: Global, rows: &[Row]) -> Result<Vec<usize>, AllocError>
    ensures { IfOk result (λ numbers. numbers.items ≡ lost_numbers rows.now) }
{
    let mut numbers = Vec::new(alloc);
    for (number, row) in rows.iter().enumerate() {
        push_lost(number, row, &mut numbers)?;
    }
    Ok(numbers)
}

/// Sets the head of a file apart from its stream: a frame whose main data begin in the head's area
/// is lost too, if every frame before it is silent or lost. Returns the numbers of all lost frames,
/// which become empty.
///
/// # Errors
/// If memory runs out.
fn set_head_apart(alloc: Global, survey: &mut Survey) -> Result<Vec<usize>, AllocError>
    ensures apart { OnOk result
        (survey_view survey.new ≡ survey_without_head (survey_view survey.old)) }
    ensures lost { IfOk result
        (λ lost. lost.items ≡ lost_numbers (head_apart (survey_view survey.old)).frames) }
{
    survey.head_apart();
    let lost = lost_numbers(alloc, survey.frames())?;
    survey.empty_lost();
    Ok(lost)
}

/// Sets the heads of all inputs apart from their streams. Returns the numbers of the lost frames of
/// each input.
///
/// # Errors
/// If memory runs out.
pub(crate) fn set_all_apart(
    alloc: Global,
    inputs: &mut [JoinInput<'_>],
) -> Result<Vec<Vec<usize>>, AllocError>
    ensures apart { OnOk result
        (map input_view inputs.new ≡ map input_without_head (map input_view inputs.old)) }
    ensures lost { IfOk result (λ lost. map vec_items lost.items
        ≡ map lost_in_input (map input_view inputs.old)) }
{
    let mut lost = Vec::new(alloc);
    for input in inputs.iter_mut() {
        let numbers = set_head_apart(alloc, &mut input.survey)?;
        lost.push(numbers)?;
    }
    Ok(lost)
}

/// How many of these numbers are `from` or greater.
pub(crate) fn count_from(from: usize, numbers: &[usize]) -> u64
    ensures { result ≡ lost_from from numbers.now }
{
    let mut count = 0;
    for number in numbers {
        if *number >= from {
            count += 1;
        }
    }
    count
}
