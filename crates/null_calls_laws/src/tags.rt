ghost use Rattle.null_calls_laws.specs.Tags.{TagsStay};

/// A law on declarations and statements with null calls: the tags of structs that stand in them are those that stand in the plain
/// ones, in order, where each marked call whose designator is not kept names what it calls.
pub fn tags_stay()
    ensures { TagsStay }
{}
