use mm_goto::Binary;
use mm_lexer::{LexFault, lex};
use mm_parse_expr::{ParseFault, parse_expr};
use mm_tree::{Expr, Node};

#[derive(Debug, Drop)]
enum Fail {
    Lexed(LexFault),
    Parsed(ParseFault),
}

impl From<LexFault> for Fail {
    fn from(fault: LexFault) -> Fail {
        Fail::Lexed(fault)
    }
}

impl From<ParseFault> for Fail {
    fn from(fault: ParseFault) -> Fail {
        Fail::Parsed(fault)
    }
}

#[test]
fn reads_the_longest_run(rt: HostRuntime) -> Result<(), Fail> {
    let alloc = rt.alloc();
    let text = "1 ;";
    let tokens = lex(alloc, text)?;
    let (one, end) = parse_expr(alloc, text, &tokens, 0)?;
    assert!(rt; matches!(&one.node, Node::Number(1)));
    assert_eq!(rt; end, 1);
    let text = "*p + 1 = 2";
    let tokens = lex(alloc, text)?;
    let (sum, end) = parse_expr(alloc, text, &tokens, 0)?;
    assert!(rt; matches!(&sum.node, Node::Bin(Binary::Add, _, _)));
    assert_eq!(rt; end, 4);
    Ok(())
}

fn is_difference(expr: &Expr) -> bool {
    match &expr.node {
        Node::Bin(Binary::Sub, first, last) => {
            matches!(&first.get().node, Node::Bin(Binary::Sub, _, _))
                && matches!(&last.get().node, Node::AddrIndex(_, _))
        }
        _ => false,
    }
}

fn is_comparison(expr: &Expr) -> bool {
    match &expr.node {
        Node::Bin(Binary::Lt, first, _) => is_difference(first.get()),
        _ => false,
    }
}

#[test]
fn joins_to_the_left_by_level(rt: HostRuntime) -> Result<(), Fail> {
    let alloc = rt.alloc();
    let text = "a - b * (c + 1) - &x[0] < NULL ? -1 : ~b";
    let tokens = lex(alloc, text)?;
    let (choice, end) = parse_expr(alloc, text, &tokens, 0)?;
    assert_eq!(rt; end, 23);
    let is_choice = match &choice.node {
        Node::Cond(test, _, _) => is_comparison(test.get()),
        _ => false,
    };
    assert!(rt; is_choice);
    Ok(())
}
