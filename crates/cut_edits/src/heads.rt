//! The head of an input.
ghost use Rattle.std.specs.Prelude.{◌≡◌, Ok, IfOk, IfErr};
ghost use Rattle.outside.specs.Files.{IsFileThere};
ghost use Rattle.outside.specs.Seen.{OnFile, OnlyRead};
ghost use Rattle.sync_survey.specs.Faults.{survey_view};
ghost use Rattle.sync_survey.specs.Survey.{survey_of, IsSurveyLaidOut};
ghost use Rattle.laying.specs.KeptFields.{fields_of_head};
ghost use Rattle.commands.specs.SingleOutput.{most_frames};
ghost use Rattle.cut_edits.specs.Heads.{IsHeadFault, HasHeadNumbers};

use commands::EditFault;
use info_header::Info;
use laying::head_fields;
use outside::Folder;
use sync_survey::Survey;

/// The fields of the head of the input, if it has one. The files stay.
///
/// # Errors
/// `Input(0, ..)` with `Read` and `Shrunk` if the frame of the head could not be read.
pub fn read_head<D: Folder>(
    folder: &mut D,
    name: &str,
    survey: &Survey,
) -> Result<Option<Info>, EditFault>
    requires there { IsFileThere (D.seen folder.old).files name.now }
    requires laid { IsSurveyLaidOut (survey_view survey.now) }
    requires surveyed { OnFile (D.seen folder.old) name.now
        (λ bytes. survey_of bytes most_frames ≡ Ok (survey_view survey.now)) }
    ensures head { IfOk result (λ head. OnFile (D.seen folder.old) name.now
        (λ bytes. head ≡ fields_of_head bytes (survey_view survey.now).head)) }
    ensures refused { IfErr result (IsHeadFault name.now
        (D.seen folder.old)
        (D.seen folder.new)) }
    ensures numbers { IfErr result HasHeadNumbers }
    ensures reads { OnlyRead result (D.seen folder.old) (D.seen folder.new) }
{
    match head_fields(folder, name, survey) {
        Ok(head) => Ok(head),
        Err(fault) => Err(EditFault::of_pass(0, 0, fault)),
    }
}
