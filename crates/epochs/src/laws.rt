//! What holds of values over epochs, and of a scheduler that takes them.

ghost use Rattle.epochs.specs.Again.{RowsAreTold};
ghost use Rattle.epochs.specs.Epochs.{KnownAgree, OutputsJoin, ValuesGoOn, ValuesJoin};
ghost use Rattle.epochs.specs.Scheduling.{AppliesNext, GoesOnFromTables, HandsOutRest, StartsEmpty};

/// Who knows a beginning of each epoch knows a beginning of the values of all, and gives outputs of all; so two of them
/// have one output at a number. Behind epochs that are full the next one goes on.
pub fn epochs_join()
    ensures values { ValuesJoin }
    ensures outputs { OutputsJoin }
    ensures one { KnownAgree }
    ensures on { ValuesGoOn }
{}

/// A scheduler that takes values one after another has the tables behind all of them, and their outputs by number, from
/// the first that it hasn't handed out. One that begins from the tables behind values goes on as if it had taken them.
pub fn schedulers_follow_values()
    ensures first { StartsEmpty }
    ensures next { AppliesNext }
    ensures handed { HandsOutRest }
    ensures on { GoesOnFromTables }
{}

/// What tables tell again, each channel's count and each latest lease that isn't over, was an output of the values that they
/// are behind.
pub fn rows_are_told()
    ensures { RowsAreTold }
{}
