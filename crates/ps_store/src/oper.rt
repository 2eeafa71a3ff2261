//! The operators, by the crate that does each, with their numbers and names.
ghost use Rattle.std.specs.Prelude.{◌≡◌, ◌≤◌, length, map, IsTrue};
ghost use Rattle.ps_store.specs.Operators.{number_of, name_of, stack_name_of, data_name_of, flow_name_of, gfx_name_of};
ghost use Rattle.ps_store.specs.Operators.{page_name_of, space_name_of, image_name_of, font_name_of};
ghost use Rattle.ps_store.specs.Operators.{operators_built, is_rising};

/// Operators on the operands alone, and `copy`.
#[derive(Clone, Copy, Debug, PartialEq, Eq)]
pub enum StackOp {
    Pop = 0,
    Exch = 1,
    Dup = 2,
    Clear = 3,
    Count = 4,
    Copy = 5,
    Index = 6,
    Roll = 7,
    Mark = 8,
    OpenArray = 9,
    OpenDict = 10,
    Cleartomark = 11,
    Counttomark = 12,
    Add = 13,
    Sub = 14,
    Mul = 15,
    Div = 16,
    Idiv = 17,
    Mod = 18,
    Neg = 19,
    Abs = 20,
    Ceiling = 21,
    Floor = 22,
    Round = 23,
    Truncate = 24,
    Sqrt = 25,
    Sin = 26,
    Cos = 27,
    Cvi = 28,
    Cvr = 29,
    Eq = 30,
    Ne = 31,
    Gt = 32,
    Ge = 33,
    Lt = 34,
    Le = 35,
    And = 36,
    Or = 37,
    Xor = 38,
    Not = 39,
    Bitshift = 40,
}

/// Operators on composites, dictionaries and names, and those that read from the program.
#[derive(Clone, Copy, Debug, PartialEq, Eq)]
pub enum DataOp {
    True = 41,
    False = 42,
    Null = 43,
    Array = 44,
    String = 45,
    Dict = 46,
    CloseArray = 47,
    CloseDict = 48,
    Length = 49,
    Get = 50,
    Put = 51,
    Getinterval = 52,
    Putinterval = 53,
    Aload = 54,
    Astore = 55,
    Begin = 56,
    End = 57,
    Def = 58,
    Load = 59,
    Known = 60,
    Where = 61,
    Currentdict = 62,
    Systemdict = 63,
    Userdict = 64,
    Cvn = 65,
    Cvx = 66,
    Cvlit = 67,
    Xcheck = 68,
    Type = 69,
    Currentfile = 82,
    Readstring = 83,
    Readhexstring = 84,
}

/// Operators on the execution stack, and `bind`.
#[derive(Clone, Copy, Debug, PartialEq, Eq)]
pub enum FlowOp {
    Exec = 70,
    If = 71,
    Ifelse = 72,
    For = 73,
    Repeat = 74,
    Loop = 75,
    Forall = 76,
    Exit = 77,
    Stop = 78,
    Stopped = 79,
    Bind = 81,
}

/// Operators on the graphics state and the marks of the page.
#[derive(Clone, Copy, Debug, PartialEq, Eq)]
pub enum GfxOp {
    Gsave = 85,
    Grestore = 86,
    Grestoreall = 87,
    Initgraphics = 88,
    Setlinewidth = 89,
    Setmiterlimit = 90,
    Setlinecap = 91,
    Setlinejoin = 92,
    Setdash = 93,
    Currentlinewidth = 94,
    Currentgray = 95,
    Setgray = 96,
    Setrgbcolor = 97,
    Setcmykcolor = 98,
    Matrix = 101,
    Currentmatrix = 102,
    Setmatrix = 103,
    Concat = 104,
    Initmatrix = 105,
    Translate = 106,
    Scale = 107,
    Rotate = 108,
    Transform = 109,
    Itransform = 110,
    Newpath = 111,
    Closepath = 112,
    Initclip = 113,
    Moveto = 114,
    Lineto = 115,
    Rmoveto = 116,
    Rlineto = 117,
    Curveto = 118,
    Rcurveto = 119,
    Arc = 120,
    Arcn = 121,
    Currentpoint = 122,
    Fill = 123,
    Eofill = 124,
    Stroke = 125,
    Clip = 126,
    Eoclip = 127,
    Rectfill = 128,
    Rectstroke = 129,
    Rectclip = 130,
    Erasepage = 135,
    Setpagedevice = 136,
}

/// Operators on colours of a colour space that the program chooses. None is built.
#[derive(Clone, Copy, Debug, PartialEq, Eq)]
pub enum SpaceOp {
    Setcolorspace = 99,
    Setcolor = 100,
}

/// Operators that paint sampled images. None is built.
#[derive(Clone, Copy, Debug, PartialEq, Eq)]
pub enum ImageOp {
    Image = 131,
    Imagemask = 132,
    Colorimage = 133,
}

/// Operators on fonts, and those by which a glyph tells its width. None is built.
#[derive(Clone, Copy, Debug, PartialEq, Eq)]
pub enum FontOp {
    Definefont = 137,
    Findfont = 138,
    Scalefont = 139,
    Makefont = 140,
    Setfont = 141,
    Show = 142,
    Setcharwidth = 143,
    Setcachedevice = 144,
}

/// The operators that end the program or give a page.
#[derive(Clone, Copy, Debug, PartialEq, Eq)]
pub enum PageOp {
    Quit = 80,
    Showpage = 134,
}

/// An operator (PostScript Language Reference, third edition, 8.1 Operator Summary). Its crate
/// is that of its kind.
#[derive(Clone, Copy, Debug, PartialEq, Eq)]
pub enum Oper {
    Stack(StackOp),
    Data(DataOp),
    Flow(FlowOp),
    Gfx(GfxOp),
    Page(PageOp),
    Space(SpaceOp),
    Image(ImageOp),
    Font(FontOp),
}

/// The operators that are built, in the order of their numbers.
const BUILT: [Oper; 135] = [
    Oper::Stack(StackOp::Pop),
    Oper::Stack(StackOp::Exch),
    Oper::Stack(StackOp::Dup),
    Oper::Stack(StackOp::Clear),
    Oper::Stack(StackOp::Count),
    Oper::Stack(StackOp::Copy),
    Oper::Stack(StackOp::Index),
    Oper::Stack(StackOp::Roll),
    Oper::Stack(StackOp::Mark),
    Oper::Stack(StackOp::OpenArray),
    Oper::Stack(StackOp::OpenDict),
    Oper::Stack(StackOp::Cleartomark),
    Oper::Stack(StackOp::Counttomark),
    Oper::Stack(StackOp::Add),
    Oper::Stack(StackOp::Sub),
    Oper::Stack(StackOp::Mul),
    Oper::Stack(StackOp::Div),
    Oper::Stack(StackOp::Idiv),
    Oper::Stack(StackOp::Mod),
    Oper::Stack(StackOp::Neg),
    Oper::Stack(StackOp::Abs),
    Oper::Stack(StackOp::Ceiling),
    Oper::Stack(StackOp::Floor),
    Oper::Stack(StackOp::Round),
    Oper::Stack(StackOp::Truncate),
    Oper::Stack(StackOp::Sqrt),
    Oper::Stack(StackOp::Sin),
    Oper::Stack(StackOp::Cos),
    Oper::Stack(StackOp::Cvi),
    Oper::Stack(StackOp::Cvr),
    Oper::Stack(StackOp::Eq),
    Oper::Stack(StackOp::Ne),
    Oper::Stack(StackOp::Gt),
    Oper::Stack(StackOp::Ge),
    Oper::Stack(StackOp::Lt),
    Oper::Stack(StackOp::Le),
    Oper::Stack(StackOp::And),
    Oper::Stack(StackOp::Or),
    Oper::Stack(StackOp::Xor),
    Oper::Stack(StackOp::Not),
    Oper::Stack(StackOp::Bitshift),
    Oper::Data(DataOp::True),
    Oper::Data(DataOp::False),
    Oper::Data(DataOp::Null),
    Oper::Data(DataOp::Array),
    Oper::Data(DataOp::String),
    Oper::Data(DataOp::Dict),
    Oper::Data(DataOp::CloseArray),
    Oper::Data(DataOp::CloseDict),
    Oper::Data(DataOp::Length),
    Oper::Data(DataOp::Get),
    Oper::Data(DataOp::Put),
    Oper::Data(DataOp::Getinterval),
    Oper::Data(DataOp::Putinterval),
    Oper::Data(DataOp::Aload),
    Oper::Data(DataOp::Astore),
    Oper::Data(DataOp::Begin),
    Oper::Data(DataOp::End),
    Oper::Data(DataOp::Def),
    Oper::Data(DataOp::Load),
    Oper::Data(DataOp::Known),
    Oper::Data(DataOp::Where),
    Oper::Data(DataOp::Currentdict),
    Oper::Data(DataOp::Systemdict),
    Oper::Data(DataOp::Userdict),
    Oper::Data(DataOp::Cvn),
    Oper::Data(DataOp::Cvx),
    Oper::Data(DataOp::Cvlit),
    Oper::Data(DataOp::Xcheck),
    Oper::Data(DataOp::Type),
    Oper::Flow(FlowOp::Exec),
    Oper::Flow(FlowOp::If),
    Oper::Flow(FlowOp::Ifelse),
    Oper::Flow(FlowOp::For),
    Oper::Flow(FlowOp::Repeat),
    Oper::Flow(FlowOp::Loop),
    Oper::Flow(FlowOp::Forall),
    Oper::Flow(FlowOp::Exit),
    Oper::Flow(FlowOp::Stop),
    Oper::Flow(FlowOp::Stopped),
    Oper::Page(PageOp::Quit),
    Oper::Flow(FlowOp::Bind),
    Oper::Data(DataOp::Currentfile),
    Oper::Data(DataOp::Readstring),
    Oper::Data(DataOp::Readhexstring),
    Oper::Gfx(GfxOp::Gsave),
    Oper::Gfx(GfxOp::Grestore),
    Oper::Gfx(GfxOp::Grestoreall),
    Oper::Gfx(GfxOp::Initgraphics),
    Oper::Gfx(GfxOp::Setlinewidth),
    Oper::Gfx(GfxOp::Setmiterlimit),
    Oper::Gfx(GfxOp::Setlinecap),
    Oper::Gfx(GfxOp::Setlinejoin),
    Oper::Gfx(GfxOp::Setdash),
    Oper::Gfx(GfxOp::Currentlinewidth),
    Oper::Gfx(GfxOp::Currentgray),
    Oper::Gfx(GfxOp::Setgray),
    Oper::Gfx(GfxOp::Setrgbcolor),
    Oper::Gfx(GfxOp::Setcmykcolor),
    Oper::Gfx(GfxOp::Matrix),
    Oper::Gfx(GfxOp::Currentmatrix),
    Oper::Gfx(GfxOp::Setmatrix),
    Oper::Gfx(GfxOp::Concat),
    Oper::Gfx(GfxOp::Initmatrix),
    Oper::Gfx(GfxOp::Translate),
    Oper::Gfx(GfxOp::Scale),
    Oper::Gfx(GfxOp::Rotate),
    Oper::Gfx(GfxOp::Transform),
    Oper::Gfx(GfxOp::Itransform),
    Oper::Gfx(GfxOp::Newpath),
    Oper::Gfx(GfxOp::Closepath),
    Oper::Gfx(GfxOp::Initclip),
    Oper::Gfx(GfxOp::Moveto),
    Oper::Gfx(GfxOp::Lineto),
    Oper::Gfx(GfxOp::Rmoveto),
    Oper::Gfx(GfxOp::Rlineto),
    Oper::Gfx(GfxOp::Curveto),
    Oper::Gfx(GfxOp::Rcurveto),
    Oper::Gfx(GfxOp::Arc),
    Oper::Gfx(GfxOp::Arcn),
    Oper::Gfx(GfxOp::Currentpoint),
    Oper::Gfx(GfxOp::Fill),
    Oper::Gfx(GfxOp::Eofill),
    Oper::Gfx(GfxOp::Stroke),
    Oper::Gfx(GfxOp::Clip),
    Oper::Gfx(GfxOp::Eoclip),
    Oper::Gfx(GfxOp::Rectfill),
    Oper::Gfx(GfxOp::Rectstroke),
    Oper::Gfx(GfxOp::Rectclip),
    Oper::Image(ImageOp::Image),
    Oper::Image(ImageOp::Imagemask),
    Oper::Image(ImageOp::Colorimage),
    Oper::Page(PageOp::Showpage),
    Oper::Gfx(GfxOp::Erasepage),
    Oper::Gfx(GfxOp::Setpagedevice),
];

impl Oper {
    /// The operator's place in the table of all operators, from 0, built or not.
    pub fn number(self) -> u8
        ensures { result ≡ number_of self }
    {
        match self {
            Oper::Stack(op) => op as u8,
            Oper::Data(op) => op as u8,
            Oper::Flow(op) => op as u8,
            Oper::Gfx(op) => op as u8,
            Oper::Page(op) => op as u8,
            Oper::Space(op) => op as u8,
            Oper::Image(op) => op as u8,
            Oper::Font(op) => op as u8,
        }
    }

    /// The name by which a program calls the operator.
    pub fn name(self) -> &'static str
        ensures value { result.now ≡ name_of self }
        ensures short { length result.now ≤ 127 }
    {
        match self {
            Oper::Stack(op) => stack_name(op),
            Oper::Data(op) => data_name(op),
            Oper::Flow(op) => flow_name(op),
            Oper::Gfx(op) => gfx_name(op),
            Oper::Page(op) => page_name(op),
            Oper::Space(op) => space_name(op),
            Oper::Image(op) => image_name(op),
            Oper::Font(op) => font_name(op),
        }
    }

    /// The operators that are built, in the order of their numbers: no program finds another one.
    pub fn built() -> &'static [Oper]
        ensures value { result.now ≡ operators_built }
        ensures ordered { IsTrue (is_rising (map number_of result.now)) }
    {
        &BUILT
    }
}

fn stack_name(op: StackOp) -> &'static str
    ensures value { result.now ≡ stack_name_of op }
    ensures short { length result.now ≤ 127 }
{
    match op {
        StackOp::Pop => "pop",
        StackOp::Exch => "exch",
        StackOp::Dup => "dup",
        StackOp::Clear => "clear",
        StackOp::Count => "count",
        StackOp::Copy => "copy",
        StackOp::Index => "index",
        StackOp::Roll => "roll",
        StackOp::Mark => "mark",
        StackOp::OpenArray => "[",
        StackOp::OpenDict => "<<",
        StackOp::Cleartomark => "cleartomark",
        StackOp::Counttomark => "counttomark",
        StackOp::Add => "add",
        StackOp::Sub => "sub",
        StackOp::Mul => "mul",
        StackOp::Div => "div",
        StackOp::Idiv => "idiv",
        StackOp::Mod => "mod",
        StackOp::Neg => "neg",
        StackOp::Abs => "abs",
        StackOp::Ceiling => "ceiling",
        StackOp::Floor => "floor",
        StackOp::Round => "round",
        StackOp::Truncate => "truncate",
        StackOp::Sqrt => "sqrt",
        StackOp::Sin => "sin",
        StackOp::Cos => "cos",
        StackOp::Cvi => "cvi",
        StackOp::Cvr => "cvr",
        StackOp::Eq => "eq",
        StackOp::Ne => "ne",
        StackOp::Gt => "gt",
        StackOp::Ge => "ge",
        StackOp::Lt => "lt",
        StackOp::Le => "le",
        StackOp::And => "and",
        StackOp::Or => "or",
        StackOp::Xor => "xor",
        StackOp::Not => "not",
        StackOp::Bitshift => "bitshift",
    }
}

fn data_name(op: DataOp) -> &'static str
    ensures value { result.now ≡ data_name_of op }
    ensures short { length result.now ≤ 127 }
{
    match op {
        DataOp::True => "true",
        DataOp::False => "false",
        DataOp::Null => "null",
        DataOp::Array => "array",
        DataOp::String => "string",
        DataOp::Dict => "dict",
        DataOp::CloseArray => "]",
        DataOp::CloseDict => ">>",
        DataOp::Length => "length",
        DataOp::Get => "get",
        DataOp::Put => "put",
        DataOp::Getinterval => "getinterval",
        DataOp::Putinterval => "putinterval",
        DataOp::Aload => "aload",
        DataOp::Astore => "astore",
        DataOp::Begin => "begin",
        DataOp::End => "end",
        DataOp::Def => "def",
        DataOp::Load => "load",
        DataOp::Known => "known",
        DataOp::Where => "where",
        DataOp::Currentdict => "currentdict",
        DataOp::Systemdict => "systemdict",
        DataOp::Userdict => "userdict",
        DataOp::Cvn => "cvn",
        DataOp::Cvx => "cvx",
        DataOp::Cvlit => "cvlit",
        DataOp::Xcheck => "xcheck",
        DataOp::Type => "type",
        DataOp::Currentfile => "currentfile",
        DataOp::Readstring => "readstring",
        DataOp::Readhexstring => "readhexstring",
    }
}

fn flow_name(op: FlowOp) -> &'static str
    ensures value { result.now ≡ flow_name_of op }
    ensures short { length result.now ≤ 127 }
{
    match op {
        FlowOp::Exec => "exec",
        FlowOp::If => "if",
        FlowOp::Ifelse => "ifelse",
        FlowOp::For => "for",
        FlowOp::Repeat => "repeat",
        FlowOp::Loop => "loop",
        FlowOp::Forall => "forall",
        FlowOp::Exit => "exit",
        FlowOp::Stop => "stop",
        FlowOp::Stopped => "stopped",
        FlowOp::Bind => "bind",
    }
}

fn gfx_name(op: GfxOp) -> &'static str
    ensures value { result.now ≡ gfx_name_of op }
    ensures short { length result.now ≤ 127 }
{
    match op {
        GfxOp::Gsave => "gsave",
        GfxOp::Grestore => "grestore",
        GfxOp::Grestoreall => "grestoreall",
        GfxOp::Initgraphics => "initgraphics",
        GfxOp::Setlinewidth => "setlinewidth",
        GfxOp::Setmiterlimit => "setmiterlimit",
        GfxOp::Setlinecap => "setlinecap",
        GfxOp::Setlinejoin => "setlinejoin",
        GfxOp::Setdash => "setdash",
        GfxOp::Currentlinewidth => "currentlinewidth",
        GfxOp::Currentgray => "currentgray",
        GfxOp::Setgray => "setgray",
        GfxOp::Setrgbcolor => "setrgbcolor",
        GfxOp::Setcmykcolor => "setcmykcolor",
        GfxOp::Matrix => "matrix",
        GfxOp::Currentmatrix => "currentmatrix",
        GfxOp::Setmatrix => "setmatrix",
        GfxOp::Concat => "concat",
        GfxOp::Initmatrix => "initmatrix",
        GfxOp::Translate => "translate",
        GfxOp::Scale => "scale",
        GfxOp::Rotate => "rotate",
        GfxOp::Transform => "transform",
        GfxOp::Itransform => "itransform",
        GfxOp::Newpath => "newpath",
        GfxOp::Closepath => "closepath",
        GfxOp::Initclip => "initclip",
        GfxOp::Moveto => "moveto",
        GfxOp::Lineto => "lineto",
        GfxOp::Rmoveto => "rmoveto",
        GfxOp::Rlineto => "rlineto",
        GfxOp::Curveto => "curveto",
        GfxOp::Rcurveto => "rcurveto",
        GfxOp::Arc => "arc",
        GfxOp::Arcn => "arcn",
        GfxOp::Currentpoint => "currentpoint",
        GfxOp::Fill => "fill",
        GfxOp::Eofill => "eofill",
        GfxOp::Stroke => "stroke",
        GfxOp::Clip => "clip",
        GfxOp::Eoclip => "eoclip",
        GfxOp::Rectfill => "rectfill",
        GfxOp::Rectstroke => "rectstroke",
        GfxOp::Rectclip => "rectclip",
        GfxOp::Erasepage => "erasepage",
        GfxOp::Setpagedevice => "setpagedevice",
    }
}

fn page_name(op: PageOp) -> &'static str
    ensures value { result.now ≡ page_name_of op }
    ensures short { length result.now ≤ 127 }
{
    match op {
        PageOp::Quit => "quit",
        PageOp::Showpage => "showpage",
    }
}

fn space_name(op: SpaceOp) -> &'static str
    ensures value { result.now ≡ space_name_of op }
    ensures short { length result.now ≤ 127 }
{
    match op {
        SpaceOp::Setcolorspace => "setcolorspace",
        SpaceOp::Setcolor => "setcolor",
    }
}

fn image_name(op: ImageOp) -> &'static str
    ensures value { result.now ≡ image_name_of op }
    ensures short { length result.now ≤ 127 }
{
    match op {
        ImageOp::Image => "image",
        ImageOp::Imagemask => "imagemask",
        ImageOp::Colorimage => "colorimage",
    }
}

fn font_name(op: FontOp) -> &'static str
    ensures value { result.now ≡ font_name_of op }
    ensures short { length result.now ≤ 127 }
{
    match op {
        FontOp::Definefont => "definefont",
        FontOp::Findfont => "findfont",
        FontOp::Scalefont => "scalefont",
        FontOp::Makefont => "makefont",
        FontOp::Setfont => "setfont",
        FontOp::Show => "show",
        FontOp::Setcharwidth => "setcharwidth",
        FontOp::Setcachedevice => "setcachedevice",
    }
}
