//! The names of what expressions have, which expressions leave out.

/// The names of what an expression has, as far as they are known.
#[cycle(labels)]
#[derive(Drop)]
pub enum Labels {
    /// None are known.
    Unknown,
    /// Those of the type that a form has under this name.
    Of(&'static str),
    /// A record's own, and those of its parts.
    Record(&'static str, Vec<PartLabels>),
    /// A choice's own, and those of its variants.
    Choice(&'static str, Vec<VariantLabels>),
    /// Those of an element, or of what a pointer leads to.
    Inner(Box<Labels>),
}

/// The name of a part, which is empty where it has none, and those of what it has.
#[cycle(labels)]
#[derive(Drop)]
pub struct PartLabels {
    /// Its name.
    pub name: &'static str,
    /// Those of what it has.
    pub labels: Labels,
}

/// The name of a variant, and those of its parts.
#[cycle(labels)]
#[derive(Drop)]
pub struct VariantLabels {
    /// Its name.
    pub name: &'static str,
    /// Those of its parts.
    pub parts: Vec<PartLabels>,
}

/// The names of a type that a form has.
#[derive(Drop)]
pub struct TypeLabels {
    /// The name that others know it by.
    pub name: &'static str,
    /// Those of what it has.
    pub labels: Labels,
}

impl Labels {
    /// The type's own name: empty where it has none.
    pub fn own(&self) -> &'static str {
        match self {
            Labels::Record(name, _) | Labels::Choice(name, _) => name,
            Labels::Unknown | Labels::Of(_) | Labels::Inner(_) => "",
        }
    }

    /// Those of an element, or of what a pointer leads to.
    pub fn inner(&self) -> Option<&Labels> {
        match self {
            Labels::Inner(labels) => Some(labels),
            _ => None,
        }
    }

    /// Those of a record's parts.
    pub fn parts(&self) -> &[PartLabels] {
        match self {
            Labels::Record(_, parts) => parts,
            _ => &[],
        }
    }

    /// Those of a variant.
    pub fn variant(&self, tag: usize) -> Option<&VariantLabels> {
        match self {
            Labels::Choice(_, variants) => variants.get(tag),
            _ => None,
        }
    }
}
