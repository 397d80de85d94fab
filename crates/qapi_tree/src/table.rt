ghost use Rattle.std.specs.Prelude.{◌≡◌};
ghost use Rattle.qapi_tree.specs.Table.{name, keys, kinds, row, rule_of as shape_rule};

/// A key that an object of some form may have (QAPI code generation guide, "Schema syntax").
#[derive(Clone, Copy, Drop)]
pub enum Key {
    Include,
    Pragma,
    Enum,
    Struct,
    Union,
    Alternate,
    Command,
    Event,
    Data,
    Prefix,
    Base,
    Discriminator,
    Returns,
    Boxed,
    Gen,
    AllowOob,
    AllowPreconfig,
    Coroutine,
    SuccessResponse,
    If,
    Features,
    Type,
    Name,
    All,
    Any,
    Not,
}

/// Which keys an object has: the eight kinds of expressions, and the objects inside them.
#[derive(Clone, Copy, Drop)]
pub enum Form {
    Include,
    Pragma,
    Enum,
    Struct,
    Union,
    Alternate,
    Command,
    Event,
    Member,
    Value,
    Branch,
    Feature,
    Choice,
}

/// What a value has to be.
#[derive(Clone, Copy, Drop)]
pub enum Shape {
    /// A string.
    Text,
    /// `true` or `false`.
    Flag,
    /// An object of any keys.
    Object,
    /// A type reference: a string, or a list of one string.
    Reference,
    /// An object from names to members.
    Members,
    /// A type reference, or an object with `type`.
    Member,
    /// A string, or members.
    TextOrMembers,
    /// A list of the values of an enum.
    Values,
    /// A string, or an object with `name`.
    Value,
    /// An object from names to branches or alternatives.
    Branches,
    /// A type reference, or an object with `type` that has no features.
    Branch,
    /// A list of features.
    Features,
    /// A string, or an object with `name` that has no features.
    Feature,
    /// A string, or an object with one of `all`, `any` and `not`.
    Condition,
    /// A list of conditions.
    Conditions,
}

/// A key of a form, and the shape of its value.
#[derive(Clone, Copy, Drop)]
pub enum KeyRule {
    /// The key has to be there.
    Needed(Key, Shape),
    /// The key may be there.
    Optional(Key, Shape),
}

/// The key by which an expression is of a kind, and the kind's form.
#[derive(Clone, Copy, Drop)]
pub struct KindRule(pub Key, pub Form);

/// Which value that is no list and no object a shape takes.
#[derive(Clone, Copy, Drop)]
pub enum ScalarRule {
    Never,
    Text,
    Flag,
}

/// Which list a shape takes.
#[derive(Clone, Copy, Drop)]
pub enum ListRule {
    /// None.
    Never,
    /// One of one item.
    One(Shape),
    /// One of any items of a shape.
    Each(Shape),
}

/// Which object a shape takes.
#[derive(Clone, Copy, Drop)]
pub enum DictRule {
    /// None.
    Never,
    /// Any.
    Any,
    /// One whose values have a shape.
    Each(Shape),
    /// One of a form.
    Of(Form),
    /// One with one of the keys of a form.
    OneOf(Form),
}

/// What a shape takes.
#[derive(Clone, Copy, Drop)]
pub struct ShapeRule {
    pub scalar: ScalarRule,
    pub list: ListRule,
    pub dict: DictRule,
}

/// How a key is written.
pub fn name_of(key: Key) -> &'static [u8]
    ensures { result.now ≡ name key }
{
    match key {
        Key::Include => b"include",
        Key::Pragma => b"pragma",
        Key::Enum => b"enum",
        Key::Struct => b"struct",
        Key::Union => b"union",
        Key::Alternate => b"alternate",
        Key::Command => b"command",
        Key::Event => b"event",
        Key::Data => b"data",
        Key::Prefix => b"prefix",
        Key::Base => b"base",
        Key::Discriminator => b"discriminator",
        Key::Returns => b"returns",
        Key::Boxed => b"boxed",
        Key::Gen => b"gen",
        Key::AllowOob => b"allow-oob",
        Key::AllowPreconfig => b"allow-preconfig",
        Key::Coroutine => b"coroutine",
        Key::SuccessResponse => b"success-response",
        Key::If => b"if",
        Key::Features => b"features",
        Key::Type => b"type",
        Key::Name => b"name",
        Key::All => b"all",
        Key::Any => b"any",
        Key::Not => b"not",
    }
}

/// The kinds of expressions.
pub fn all_kinds() -> &'static [KindRule]
    ensures { result.now ≡ kinds }
{
    &[
        KindRule(Key::Include, Form::Include),
        KindRule(Key::Pragma, Form::Pragma),
        KindRule(Key::Enum, Form::Enum),
        KindRule(Key::Struct, Form::Struct),
        KindRule(Key::Union, Form::Union),
        KindRule(Key::Alternate, Form::Alternate),
        KindRule(Key::Command, Form::Command),
        KindRule(Key::Event, Form::Event),
    ]
}

/// The keys of a form, in the order in which a missing one is told.
pub fn keys_of(form: Form) -> &'static [KeyRule]
    ensures { result.now ≡ keys form }
{
    match form {
        Form::Include => &[KeyRule::Needed(Key::Include, Shape::Text)],
        Form::Pragma => &[KeyRule::Needed(Key::Pragma, Shape::Object)],
        Form::Enum => &[
            KeyRule::Needed(Key::Enum, Shape::Text),
            KeyRule::Needed(Key::Data, Shape::Values),
            KeyRule::Optional(Key::Prefix, Shape::Text),
            KeyRule::Optional(Key::If, Shape::Condition),
            KeyRule::Optional(Key::Features, Shape::Features),
        ],
        Form::Struct => &[
            KeyRule::Needed(Key::Struct, Shape::Text),
            KeyRule::Needed(Key::Data, Shape::Members),
            KeyRule::Optional(Key::Base, Shape::Text),
            KeyRule::Optional(Key::If, Shape::Condition),
            KeyRule::Optional(Key::Features, Shape::Features),
        ],
        Form::Union => &[
            KeyRule::Needed(Key::Union, Shape::Text),
            KeyRule::Needed(Key::Base, Shape::TextOrMembers),
            KeyRule::Needed(Key::Discriminator, Shape::Text),
            KeyRule::Needed(Key::Data, Shape::Branches),
            KeyRule::Optional(Key::If, Shape::Condition),
            KeyRule::Optional(Key::Features, Shape::Features),
        ],
        Form::Alternate => &[
            KeyRule::Needed(Key::Alternate, Shape::Text),
            KeyRule::Needed(Key::Data, Shape::Branches),
            KeyRule::Optional(Key::If, Shape::Condition),
            KeyRule::Optional(Key::Features, Shape::Features),
        ],
        Form::Command => &[
            KeyRule::Needed(Key::Command, Shape::Text),
            KeyRule::Optional(Key::Data, Shape::TextOrMembers),
            KeyRule::Optional(Key::Returns, Shape::Reference),
            KeyRule::Optional(Key::Boxed, Shape::Flag),
            KeyRule::Optional(Key::Gen, Shape::Flag),
            KeyRule::Optional(Key::AllowOob, Shape::Flag),
            KeyRule::Optional(Key::AllowPreconfig, Shape::Flag),
            KeyRule::Optional(Key::Coroutine, Shape::Flag),
            KeyRule::Optional(Key::SuccessResponse, Shape::Flag),
            KeyRule::Optional(Key::If, Shape::Condition),
            KeyRule::Optional(Key::Features, Shape::Features),
        ],
        Form::Event => &[
            KeyRule::Needed(Key::Event, Shape::Text),
            KeyRule::Optional(Key::Data, Shape::TextOrMembers),
            KeyRule::Optional(Key::Boxed, Shape::Flag),
            KeyRule::Optional(Key::If, Shape::Condition),
            KeyRule::Optional(Key::Features, Shape::Features),
        ],
        Form::Member => &[
            KeyRule::Needed(Key::Type, Shape::Reference),
            KeyRule::Optional(Key::If, Shape::Condition),
            KeyRule::Optional(Key::Features, Shape::Features),
        ],
        Form::Value => &[
            KeyRule::Needed(Key::Name, Shape::Text),
            KeyRule::Optional(Key::If, Shape::Condition),
            KeyRule::Optional(Key::Features, Shape::Features),
        ],
        Form::Branch => &[
            KeyRule::Needed(Key::Type, Shape::Reference),
            KeyRule::Optional(Key::If, Shape::Condition),
        ],
        Form::Feature => &[
            KeyRule::Needed(Key::Name, Shape::Text),
            KeyRule::Optional(Key::If, Shape::Condition),
        ],
        Form::Choice => &[
            KeyRule::Optional(Key::All, Shape::Conditions),
            KeyRule::Optional(Key::Any, Shape::Conditions),
            KeyRule::Optional(Key::Not, Shape::Condition),
        ],
    }
}

fn rule(scalar: ScalarRule, list: ListRule, dict: DictRule) -> ShapeRule
    ensures { result ≡ row scalar list dict }
{
    ShapeRule { scalar, list, dict }
}

/// What a shape takes.
pub fn rule_of(shape: Shape) -> ShapeRule
    ensures { result ≡ shape_rule shape }
{
    let text = ScalarRule::Text;
    let none = ScalarRule::Never;
    let no_list = ListRule::Never;
    let no_dict = DictRule::Never;
    match shape {
        Shape::Text => rule(text, no_list, no_dict),
        Shape::Flag => rule(ScalarRule::Flag, no_list, no_dict),
        Shape::Object => rule(none, no_list, DictRule::Any),
        Shape::Reference => rule(text, ListRule::One(Shape::Text), no_dict),
        Shape::Members => rule(none, no_list, DictRule::Each(Shape::Member)),
        Shape::Member => rule(text, ListRule::One(Shape::Text), DictRule::Of(Form::Member)),
        Shape::TextOrMembers => rule(text, no_list, DictRule::Each(Shape::Member)),
        Shape::Values => rule(none, ListRule::Each(Shape::Value), no_dict),
        Shape::Value => rule(text, no_list, DictRule::Of(Form::Value)),
        Shape::Branches => rule(none, no_list, DictRule::Each(Shape::Branch)),
        Shape::Branch => rule(text, ListRule::One(Shape::Text), DictRule::Of(Form::Branch)),
        Shape::Features => rule(none, ListRule::Each(Shape::Feature), no_dict),
        Shape::Feature => rule(text, no_list, DictRule::Of(Form::Feature)),
        Shape::Condition => rule(text, no_list, DictRule::OneOf(Form::Choice)),
        Shape::Conditions => rule(none, ListRule::Each(Shape::Condition), no_dict),
    }
}
