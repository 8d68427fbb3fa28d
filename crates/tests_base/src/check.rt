// Leaves, regions, and the contexts in which bytes are checked.

mod blocks;
mod contexts;
mod leaves;
mod memory;
mod ranges;
mod slots;

use archive_check::format::expr::FlavorInfo;

// The flavor of pointers that may not lead into their own values.
const RC: FlavorInfo = FlavorInfo {
    name: "RcFlavor",
    cycles: false,
};
