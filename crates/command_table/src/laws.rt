//! The law of the table. The function does nothing: a proof that needs the law calls it.
ghost use Rattle.command_table.specs.Laws.{FilesAreOfCommands};

/// Each command reads and writes the files that its entry names, and reads those as streams that are its sources there.
pub fn files_are_of_commands()
    ensures { FilesAreOfCommands }
{}
