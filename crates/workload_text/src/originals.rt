//! Which items are original.
ghost use Rattle.std.specs.Prelude.{◌≡◌, codes};
ghost use Rattle.tpcc_rules.specs.NewOrders as orders;

/// Whether the bytes hold these bytes somewhere.
fn includes(needle: &[u8], bytes: &[u8]) -> bool
    ensures { result ≡ orders.includes needle.now bytes.now }
{
    let mut rest = bytes;
    while !rest.starts_with(needle) {
        match rest.split_first() {
            Some((_, more)) => rest = more,
            None => return false,
        }
    }
    true
}

/// Whether the data of an item includes `ORIGINAL` (TPC-C 4.3.3.1).
pub fn is_original(text: &[u8]) -> bool
    ensures { result ≡ orders.includes (codes "ORIGINAL") text.now }
{
    includes(b"ORIGINAL", text)
}
