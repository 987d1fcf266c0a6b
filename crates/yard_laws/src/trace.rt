//! What the facts that the world tells say of the world.
ghost use Rattle.yard_laws.specs.WorldWords.{PlayedFolds, OrderFolds, LineFolds};

/// The words of the world, but for its nodes and what was ordered, are the folds of their steps
/// over the facts of its trace: lists, members, version, numbers of incarnations, posted packets,
/// packets never delivered, and whether the trace stops. So of a script that is played, and from
/// any world on of one line and of one order.
pub fn words_are_folds()
    ensures played { PlayedFolds }
    ensures line { LineFolds }
    ensures order { OrderFolds }
{}
