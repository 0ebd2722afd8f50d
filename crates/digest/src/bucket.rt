// Buckets of names.
ghost use Rattle.std.specs.Prelude.{◌≡◌};
ghost use Rattle.digest.specs.Index.{bucket_of};

// Which bucket a name is in.
pub(crate) fn bucket(name: &[u8]) -> usize
    ensures { result ≡ bucket_of name.now }
{
    let mut h: u32 = 0;
    for &b in name {
        h = (h * 33 + u32::from(b)) % 65536;
    }
    (h % 256) as usize
}
