// Ported from types.rs of mahi-mahi-consensus, Copyright (c) Mysten Labs, Inc., Apache-2.0.
// Changed: written anew in Rattle, with contracts. NOTICE says what was carried across and what was changed.

// The includes of a block's bytes (types.rs).
#![tactic(auto)]

ghost use Rattle.std.specs.Prelude.{◌≡◌};
ghost use Rattle.includes.specs.References.{among};
ghost use Rattle.includes.specs.Includes.{includes_of, Parses};

use bincode::Decode;
use types::{BlockReference, include_at};

// Whether the block that these bytes begin with includes the reference.
pub fn includes(block: &[u8], reference: BlockReference) -> bool
    requires { Parses block.now }
    ensures { result ≡ among reference (includes_of block.now) }
{
    let Some((n, at)) = u64::decode(block, 56) else {
        return false;
    };
    for i in 0..n {
        let Some((include, _)) = include_at(block, at, i as usize) else {
            return false;
        };
        if reference == include {
            return true;
        }
    }
    false
}
