use std::alloc::{AllocError, Global};
use std::test::Fail;
use zpl_nums::{Border, Fold, Op};
use zpl_tree::{
    Arm, Base, Decl, Define, DimText, Dir, DirDef, Expr, ExprForm, ForHead, Form, Inner, Item,
    Mask, Name, Param, Post, Pre, Prefix, Procedure, Program, RegionBase, RegionDef, Rexpr, Stmt,
    VarDef, print_tree,
};

macro_rules! name {
    ($text:literal) => {
        Name { text: $text, at: 0 }
    };
}

macro_rules! expr {
    ($form:expr) => {
        Expr { at: 0, form: $form }
    };
}

macro_rules! value {
    ($form:expr) => {
        Item::Value(&Expr { at: 0, form: $form })
    };
}

macro_rules! stmt {
    ($form:expr) => {
        Stmt {
            at: 0,
            prefixes: &[],
            form: $form,
        }
    };
}

macro_rules! region {
    ($text:literal) => {
        Inner::Rexpr(Rexpr {
            pre: &[],
            base: RegionBase::Named(name!($text)),
            post: &[],
        })
    };
}

macro_rules! program {
    ($decls:expr) => {
        Program {
            name: name!(b"t"),
            decls: $decls,
            source: b"",
        }
    };
}

macro_rules! procedure {
    ($body:expr) => {
        Decl::Procedure(&Procedure {
            name: name!(b"t"),
            params: &[],
            result: None,
            locals: &[],
            body: stmt!(Form::Block($body)),
        })
    };
}

const ONE: Expr<'static> = expr!(ExprForm::Number(1));

const X: Expr<'static> = expr!(ExprForm::Named(name!(b"x")));

const SUM: Program<'static> = program!(&[
    Decl::Vars(&[VarDef {
        names: &[name!(b"x")],
        shape: None,
        base: Base::Integer,
    }]),
    procedure!(&[stmt!(Form::Assign(
        name!(b"x"),
        None,
        &expr!(ExprForm::Pair(
            Op::Add,
            &ONE,
            &expr!(ExprForm::Neg(&expr!(ExprForm::Number(2))))
        )),
    ))]),
]);

const OPERATORS: Program<'static> = program!(&[procedure!(&[stmt!(Form::Write(
    false,
    &[
        value!(ExprForm::Pair(Op::Add, &X, &ONE)),
        value!(ExprForm::Pair(Op::Sub, &X, &ONE)),
        value!(ExprForm::Pair(Op::Mul, &X, &ONE)),
        value!(ExprForm::Pair(Op::Div, &X, &ONE)),
        value!(ExprForm::Pair(Op::Rem, &X, &ONE)),
        value!(ExprForm::Pair(Op::Eq, &X, &ONE)),
        value!(ExprForm::Pair(Op::Ne, &X, &ONE)),
        value!(ExprForm::Pair(Op::Lt, &X, &ONE)),
        value!(ExprForm::Pair(Op::Le, &X, &ONE)),
        value!(ExprForm::Pair(Op::Gt, &X, &ONE)),
        value!(ExprForm::Pair(Op::Ge, &X, &ONE)),
        value!(ExprForm::Pair(Op::And, &X, &ONE)),
        value!(ExprForm::Pair(Op::Or, &X, &ONE)),
        value!(ExprForm::Pair(Op::Max, &X, &ONE)),
        value!(ExprForm::Pair(Op::Min, &X, &ONE)),
    ],
))])]);

const EXPRESSIONS: Program<'static> = program!(&[procedure!(&[stmt!(Form::Write(
    true,
    &[
        Item::Str(b"a\\n"),
        value!(ExprForm::Number(i64::MAX)),
        value!(ExprForm::Truth(true)),
        value!(ExprForm::Truth(false)),
        value!(ExprForm::Coord(1)),
        value!(ExprForm::Coord(2)),
        value!(ExprForm::Coord(3)),
        value!(ExprForm::Shifted(name!(b"A"), Dir::Named(name!(b"d")))),
        value!(ExprForm::Shifted(name!(b"A"), Dir::Vector(&[ONE, X]))),
        value!(ExprForm::Around(name!(b"A"), Dir::Named(name!(b"d")))),
        value!(ExprForm::Around(name!(b"A"), Dir::Vector(&[ONE, X]))),
        value!(ExprForm::Remap(name!(b"A"), &[X])),
        value!(ExprForm::Remap(name!(b"A"), &[ONE, X])),
        value!(ExprForm::Call(name!(b"p"), &[])),
        value!(ExprForm::Call(name!(b"p"), &[ONE, X])),
        value!(ExprForm::Paren(&X)),
        value!(ExprForm::Not(&X)),
        value!(ExprForm::Abs(&X)),
        value!(ExprForm::Reduce(Fold::Sum, None, &X)),
        value!(ExprForm::Reduce(Fold::Prod, Some(region!(b"R")), &X)),
        value!(ExprForm::Reduce(Fold::All, None, &X)),
        value!(ExprForm::Scan(Fold::Max, None, &X)),
        value!(ExprForm::Scan(Fold::Min, Some(2), &X)),
        value!(ExprForm::Scan(Fold::Any, None, &X)),
        value!(ExprForm::Flood(
            Inner::Dims(&[
                DimText::Span(&ONE, &X),
                DimText::Star(0),
                DimText::Blank(0),
                DimText::One(&X)
            ]),
            &X
        )),
    ],
))])]);

const CALL: Stmt<'static> = stmt!(Form::Call(name!(b"p"), &[]));

const SIMPLE: Program<'static> = program!(&[procedure!(&[
    stmt!(Form::Assign(name!(b"x"), Some(Op::Add), &ONE)),
    stmt!(Form::Assign(name!(b"x"), Some(Op::Sub), &ONE)),
    stmt!(Form::Assign(name!(b"x"), Some(Op::Mul), &ONE)),
    stmt!(Form::Assign(name!(b"x"), Some(Op::Div), &ONE)),
    stmt!(Form::Assign(name!(b"x"), Some(Op::Rem), &ONE)),
    stmt!(Form::Assign(name!(b"x"), Some(Op::And), &ONE)),
    stmt!(Form::Assign(name!(b"x"), Some(Op::Or), &ONE)),
    CALL,
    stmt!(Form::Call(name!(b"p"), &[ONE, X])),
    stmt!(Form::Border(Border::Wrap, &[name!(b"A"), name!(b"B")])),
    stmt!(Form::Border(Border::Reflect, &[name!(b"A")])),
    stmt!(Form::Write(false, &[])),
    stmt!(Form::Return(&X)),
])]);

const COMPOUND: Program<'static> = program!(&[procedure!(&[
    Stmt {
        at: 0,
        prefixes: &[
            Prefix {
                at: 0,
                region: region!(b"R"),
                mask: None
            },
            Prefix {
                at: 0,
                region: region!(b"R"),
                mask: Some(Mask {
                    name: name!(b"M"),
                    without: false
                })
            },
            Prefix {
                at: 0,
                region: Inner::Dims(&[DimText::Blank(0)]),
                mask: Some(Mask {
                    name: name!(b"M"),
                    without: true
                })
            },
        ],
        form: Form::Block(&[CALL]),
    },
    stmt!(Form::If(
        &[Arm {
            at: 0,
            test: &X,
            body: &[]
        }],
        None
    )),
    stmt!(Form::If(
        &[
            Arm {
                at: 0,
                test: &X,
                body: &[]
            },
            Arm {
                at: 0,
                test: &ONE,
                body: &[CALL, CALL]
            },
        ],
        Some(&[CALL]),
    )),
    stmt!(Form::While(&X, &[CALL])),
    stmt!(Form::Repeat(&[CALL], 0, &X)),
    stmt!(Form::For(
        &ForHead {
            name: name!(b"x"),
            first: &ONE,
            down: false,
            last: &X,
            step: None
        },
        &[CALL]
    )),
    stmt!(Form::For(
        &ForHead {
            name: name!(b"x"),
            first: &X,
            down: true,
            last: &ONE,
            step: Some(&X)
        },
        &[]
    )),
])]);

const DECLARATIONS: Program<'static> = program!(&[
    Decl::Config(&[Define {
        name: name!(b"n"),
        base: Base::Integer,
        value: &ONE
    }]),
    Decl::Constant(&[
        Define {
            name: name!(b"c"),
            base: Base::Boolean,
            value: &X
        },
        Define {
            name: name!(b"e"),
            base: Base::Other(name!(b"real")),
            value: &ONE
        },
    ]),
    Decl::Regions(&[
        RegionDef {
            name: name!(b"R"),
            body: Inner::Dims(&[DimText::Span(&ONE, &X)]),
            posts: &[Post {
                stride: true,
                dir: Dir::Vector(&[ONE])
            }]
        },
        RegionDef {
            name: name!(b"S"),
            body: Inner::Rexpr(Rexpr {
                pre: &[
                    Pre {
                        dir: name!(b"d"),
                        outside: true
                    },
                    Pre {
                        dir: name!(b"d"),
                        outside: false
                    },
                ],
                base: RegionBase::Ditto(0),
                post: &[Post {
                    stride: false,
                    dir: Dir::Named(name!(b"d"))
                }]
            }),
            posts: &[]
        },
    ]),
    Decl::Directions(&[DirDef {
        name: name!(b"d"),
        parts: &[ONE, X]
    }]),
    Decl::Vars(&[
        VarDef {
            names: &[name!(b"A"), name!(b"B")],
            shape: Some(region!(b"R")),
            base: Base::Integer
        },
        VarDef {
            names: &[name!(b"x")],
            shape: None,
            base: Base::Boolean
        },
    ]),
    Decl::Procedure(&Procedure {
        name: name!(b"p"),
        params: &[
            Param {
                by_ref: true,
                names: &[name!(b"A"), name!(b"B")],
                shape: Some(region!(b"R")),
                base: Base::Integer
            },
            Param {
                by_ref: false,
                names: &[name!(b"x")],
                shape: None,
                base: Base::Boolean
            },
        ],
        result: Some(Base::Integer),
        locals: &[
            VarDef {
                names: &[name!(b"y")],
                shape: None,
                base: Base::Integer
            },
            VarDef {
                names: &[name!(b"z")],
                shape: Some(region!(b"R")),
                base: Base::Boolean
            },
        ],
        body: stmt!(Form::Block(&[])),
    }),
]);

fn printed(alloc: Global, program: &Program<'_>) -> Result<Vec<u8>, AllocError> {
    let mut text = Vec::new(alloc);
    print_tree(alloc, program, &mut text)?;
    Ok(text)
}

/// Programs, and how they are printed.
const PRINTED: [(&Program<'static>, &str); 6] = [
    (
        &SUM,
        "program t ;\nvar x : integer ;\nprocedure t ( ) ;\nbegin x := 1 + - 2 ;\nend ;\n",
    ),
    (
        &OPERATORS,
        "program t ;\nprocedure t ( ) ;\nbegin write ( \
         x + 1 , x - 1 , x * 1 , x / 1 , x % 1 , \
         x = 1 , x != 1 , x < 1 , x <= 1 , x > 1 , x >= 1 , \
         x & 1 , x | 1 , max ( x , 1 ) , min ( x , 1 ) ) ;\nend ;\n",
    ),
    (
        &EXPRESSIONS,
        "program t ;\nprocedure t ( ) ;\nbegin writeln ( \"a\\n\" , \
         9223372036854775807 , true , false , Index1 , Index2 , Index3 , \
         A @ d , A @ [ 1 , x ] , A @ ^ d , A @ ^ [ 1 , x ] , A # [ x ] , A # [ 1 , x ] , \
         p ( ) , p ( 1 , x ) , ( x ) , ! x , abs ( x ) , \
         + << x , * << [ R ] x , & << x , max || x , min || [ 2 ] x , | || x , \
         >> [ 1 .. x , * , , x ] x ) ;\nend ;\n",
    ),
    (
        &SIMPLE,
        "program t ;\nprocedure t ( ) ;\nbegin x += 1 ;\nx -= 1 ;\nx *= 1 ;\nx /= 1 ;\n\
         x %= 1 ;\nx &= 1 ;\nx |= 1 ;\np ( ) ;\np ( 1 , x ) ;\nwrap A , B ;\nreflect A ;\n\
         write ( ) ;\nreturn x ;\nend ;\n",
    ),
    (
        &COMPOUND,
        "program t ;\nprocedure t ( ) ;\nbegin [ R ] [ R with M ] [ without M ] begin p ( ) ;\n\
         end ;\nif x then end ;\nif x then elsif 1 then p ( ) ;\np ( ) ;\nelse p ( ) ;\nend ;\n\
         while x do p ( ) ;\nend ;\nrepeat p ( ) ;\nuntil x ;\nfor x := 1 to x do p ( ) ;\nend ;\n\
         for x := x downto 1 by x do end ;\nend ;\n",
    ),
    (
        &DECLARATIONS,
        "program t ;\nconfig var n : integer = 1 ;\nconstant c : boolean = x ;\ne : real = 1 ;\n\
         region R = [ 1 .. x ] by [ 1 ] ;\nS = [ d of d in \" at d ] ;\ndirection d = [ 1 , x ] ;\n\
         var A , B : [ R ] integer ;\nx : boolean ;\nprocedure p ( var A , B : [ R ] integer ;\n\
         x : boolean ) : integer ;\nvar y : integer ;\nz : [ R ] boolean ;\nbegin end ;\n",
    ),
];

#[test]
fn programs_are_printed(rt: HostRuntime) -> Result<(), Fail> {
    for (program, expected) in PRINTED {
        let text = printed(rt.alloc(), program)?;
        assert!(rt; text.as_slice() == expected.as_bytes());
    }
    Ok(())
}
