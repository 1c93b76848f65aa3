/// A version of the certificate's bytes. The second has bare nodes, and a tag at each node.
#[derive(Clone, Copy, Debug, PartialEq, Eq)]
pub enum Version {
    One,
    Two,
}
