//! The fields of requests, and what may be wrong with one.

ghost use Rattle.std.specs.Prelude.{◌≡◌};
ghost use Rattle.model_faults.specs.Fields.{field_name, problem_text};

/// A field of a request.
#[derive(Clone, Copy, PartialEq, Eq)]
pub enum Field {
    Name,
    DefaultPrice,
    Active,
    Variations,
    Size,
    Items,
    ReleaseAfterExit,
    Item,
    Variation,
    Price,
    CartId,
    Expires,
    Voucher,
    Value,
    Code,
    MaxUsages,
    ValidUntil,
    BlockQuota,
    AllowIgnoreQuota,
    PriceMode,
    Quota,
    Tag,
    Comment,
    Budget,
    Email,
    Status,
    ConsumeCarts,
    Positions,
    Priority,
    AllProducts,
    LimitProducts,
    IncludePending,
    AllowMultipleEntries,
    AllowEntryAfterExit,
    Type,
    Nonce,
    Datetime,
    Force,
    IgnoreUnpaid,
}

/// What is wrong with a field.
#[derive(Clone, Copy, PartialEq, Eq)]
pub enum Problem {
    /// It has to be there, and isn't.
    Required,
    /// It is null, and may not be.
    Null,
    /// It is an empty text, and may not be.
    Blank,
    /// It is of another kind, or another word of a choice, or a text or a number that is no amount, or a text that is
    /// no moment.
    Invalid,
    /// It is a number, an amount or a moment out of its limits.
    OutOfRange,
    /// It is a text that is too long, or has a control byte.
    NotAllowed,
}

/// The first field of a request that is wrong.
#[derive(Clone, Copy, PartialEq, Eq)]
pub struct Fault {
    pub field: Field,
    pub problem: Problem,
}

/// What is wrong with an entry of a bulk call.
#[derive(Clone, Copy, PartialEq, Eq)]
pub enum EntryFault {
    /// It is no object.
    InvalidData,
    /// A field of it is wrong.
    Field(Fault),
}

impl Field {
    /// The name by which a body gives it.
    pub fn name(self) -> &'static str
        ensures { result.now ≡ field_name self }
    {
        match self {
            Field::Name => "name",
            Field::DefaultPrice => "default_price",
            Field::Active => "active",
            Field::Variations => "variations",
            Field::Size => "size",
            Field::Items => "items",
            Field::ReleaseAfterExit => "release_after_exit",
            Field::Item => "item",
            Field::Variation => "variation",
            Field::Price => "price",
            Field::CartId => "cart_id",
            Field::Expires => "expires",
            Field::Voucher => "voucher",
            Field::Value => "value",
            Field::Code => "code",
            Field::MaxUsages => "max_usages",
            Field::ValidUntil => "valid_until",
            Field::BlockQuota => "block_quota",
            Field::AllowIgnoreQuota => "allow_ignore_quota",
            Field::PriceMode => "price_mode",
            Field::Quota => "quota",
            Field::Tag => "tag",
            Field::Comment => "comment",
            Field::Budget => "budget",
            Field::Email => "email",
            Field::Status => "status",
            Field::ConsumeCarts => "consume_carts",
            Field::Positions => "positions",
            Field::Priority => "priority",
            Field::AllProducts => "all_products",
            Field::LimitProducts => "limit_products",
            Field::IncludePending => "include_pending",
            Field::AllowMultipleEntries => "allow_multiple_entries",
            Field::AllowEntryAfterExit => "allow_entry_after_exit",
            Field::Type => "type",
            Field::Nonce => "nonce",
            Field::Datetime => "datetime",
            Field::Force => "force",
            Field::IgnoreUnpaid => "ignore_unpaid",
        }
    }
}

impl Problem {
    /// The sentence that says it.
    pub fn text(self) -> &'static str
        ensures { result.now ≡ problem_text self }
    {
        match self {
            Problem::Required => "This field is required.",
            Problem::Null => "This field may not be null.",
            Problem::Blank => "This field may not be blank.",
            Problem::Invalid => "A valid value is required.",
            Problem::OutOfRange => "Value out of range.",
            Problem::NotAllowed => "Text not allowed.",
        }
    }
}
