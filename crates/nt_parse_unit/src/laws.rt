// Laws of the definitions in specs/.
ghost use Rattle.nt_parse_unit.specs.Readings.{OneSource, SourceExactly, EachItemPlace};

/// No tokens are a file in two ways, whatever the limit.
pub fn one_source()
    ensures { OneSource }
{}

/// The reader finds the items that the grammar derives, and finds some only where there are such.
pub fn source_exactly()
    ensures { SourceExactly }
{}

/// What is derived from tokens in the order of their offsets has its places in that order.
pub fn each_item_place()
    ensures { EachItemPlace }
{}
