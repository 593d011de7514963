// A field that takes no memory.

/// A struct that borrows and has facts attached to it once needed a field that owns something before a `Result`
/// might hold it. This one owns nothing at all, and is written `covered: []`. No feed here has it any more; it
/// stays for feeds made elsewhere.
pub type Covered = [Vec<u8>; 0];
