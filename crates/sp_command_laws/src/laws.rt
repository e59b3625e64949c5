//! What is said of commands, by example.
ghost use Rattle.sp_command_laws.specs.Commands.{HaveForms, LimitFiles, NameFiles, OrderReads, OrderRefusals};
ghost use Rattle.sp_command_laws.specs.Ends.{FollowReads, KeepPromises, MayStay, SayStatuses, WriteOnce};
ghost use Rattle.sp_command_laws.specs.Sessions.{CallFiles};
ghost use Rattle.sp_command_laws.specs.Texts.{NumberExits, PrintTexts};

/// The words of a command are its name, the names of its files, and for a run its options.
pub fn words_have_forms()
    ensures { HaveForms }
{}

/// The files that a command reads are its inputs, in the order of its stages.
pub fn commands_name_files()
    ensures { NameFiles }
{}

/// A source and an image have 1,048,576 bytes at most, scripts 4,194,304.
pub fn files_have_limits()
    ensures { LimitFiles }
{}

/// A command has the refusal of its first stage that refuses.
pub fn refusals_have_an_order()
    ensures { OrderRefusals }
{}

/// A command reads its inputs in their order, and none after one that isn't given.
pub fn reads_have_an_order()
    ensures { OrderReads }
{}

/// What is printed.
pub fn texts_are_printed()
    ensures { PrintTexts }
{}

/// Each status has its own exit number.
pub fn statuses_have_numbers()
    ensures { NumberExits }
{}

/// Whatever a command's status, its image file holds what it held or a front of its image, and the sink took a front of one
/// of its texts, or nothing.
pub fn files_and_sinks_hold_fronts()
    ensures { KeepPromises }
{}

/// Done puts the report, Refused the refusal that stands, and no other status has a text.
pub fn statuses_have_texts()
    ensures { SayStatuses }
{}

/// How its reads ended says which statuses a command may have.
pub fn statuses_follow_reads()
    ensures { FollowReads }
{}

/// An image is written once at most.
pub fn images_are_written_once()
    ensures { WriteOnce }
{}

/// The calls of a command on files, by how it ended.
pub fn commands_call_files()
    ensures { CallFiles }
{}

/// An image file may stay as it was, unless the command is done or its sink failed.
pub fn files_may_stay()
    ensures { MayStay }
{}
