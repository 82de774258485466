//! Why a tag or a value could not be read.

use thiserror::Error;

/// What is wrong with the octets in a tag's place.
#[derive(Clone, Copy, Debug, Error)]
pub enum TagFault {
    /// 1: the octets end within the tag, also if there are none.
    #[error("the octets end within a tag")]
    Short,
    /// 2: the tag is whole, and has the number 255, or is an opening or closing of application
    /// class.
    #[error("no tag has number 255 or brackets of application class")]
    BadTag,
}

/// What is wrong with the octets in a value's place.
#[derive(Clone, Copy, Debug, Error)]
pub enum ValueFault {
    /// 1: the octets end within the tag or the content.
    #[error("the octets end within a value")]
    Short,
    /// 2: the tag is whole, and none of the thirteen kinds of application class has it.
    #[error("no value has this tag")]
    BadTag,
    /// 3: the kind has no content of this length, or a bit string no such count of unused bits.
    #[error("no value of this kind has this length")]
    BadLength,
    /// 4: a character string of set 0 that isn't UTF-8.
    #[error("a character string of set 0 is UTF-8")]
    BadText,
}

impl From<TagFault> for ValueFault {
    ghost use Rattle.std.specs.Prelude.{◌≡◌};
    ghost use Rattle.gw_codecs.specs.tags.Fault.{fault_of_tag};

    ghost from_gives = { λ t e. e ≡ fault_of_tag t };

    fn from(fault: TagFault) -> ValueFault {
        match fault {
            TagFault::Short => ValueFault::Short,
            TagFault::BadTag => ValueFault::BadTag,
        }
    }
}

/// What is wrong with the octets in the place of a parameter under a context tag.
#[derive(Clone, Copy, Debug, Error)]
pub enum ContextFault {
    /// 1: the octets end within the tag, or within the content of the parameter.
    #[error("the octets end within a parameter")]
    Short,
    /// 2: the tag is whole and no tag.
    #[error("no tag is in the place of a parameter")]
    BadTag,
    /// 3: another tag is in its place.
    #[error("another parameter is there")]
    OtherTag,
}

impl From<TagFault> for ContextFault {
    ghost use Rattle.std.specs.Prelude.{◌≡◌};
    ghost use Rattle.gw_codecs.specs.tags.Fault.{context_fault};

    ghost from_gives = { λ t e. e ≡ context_fault t };

    fn from(fault: TagFault) -> ContextFault {
        match fault {
            TagFault::Short => ContextFault::Short,
            TagFault::BadTag => ContextFault::BadTag,
        }
    }
}
