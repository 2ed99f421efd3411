use rdf_meaning::text_of;
use sql_meaning::{Body, Core, Item, JoinTo, Script, Source, SqlExpr, SqlKey};
use sqlite_items::{Boxed, Items};
use std::alloc::{AllocError, Global};
use tree_visitors::{CountRefs, Shape, fold_sql};

fn column(alloc: Global, alias: &str, name: &str) -> Result<SqlExpr, AllocError> {
    let alias = text_of(alloc, alias)?;
    Ok(SqlExpr::Name(alias, text_of(alloc, name)?))
}

fn source(alloc: Global, table: &str, alias: &str) -> Result<Source, AllocError> {
    let table = text_of(alloc, table)?;
    let alias = text_of(alloc, alias)?;
    Ok(Source { table, alias })
}

fn items(alloc: Global) -> Result<Items<Item>, AllocError> {
    let mut items = Items::new(alloc);
    for (alias, name, shown) in [("u", "a", "a"), ("v", "b", "c")] {
        let expr = column(alloc, alias, name)?;
        let name = text_of(alloc, shown)?;
        items.push(Item { expr, name })?;
    }
    Ok(items)
}

fn joins(alloc: Global, table: &str) -> Result<Items<JoinTo>, AllocError> {
    let left = Boxed::new(alloc, column(alloc, "u", "a")?)?;
    let right = Boxed::new(alloc, column(alloc, "v", "a")?)?;
    let mut joins = Items::new(alloc);
    joins.push(JoinTo {
        left: true,
        source: source(alloc, table, "v")?,
        on: SqlExpr::Equal(left, right),
    })?;
    Ok(joins)
}

// SELECT u.a AS a, v.b AS c FROM first AS u LEFT JOIN second AS v ON (u.a = v.a) ORDER BY u.b
fn joined(alloc: Global, first: &str, second: &str) -> Result<Script, AllocError> {
    let mut keys = Items::new(alloc);
    let expr = column(alloc, "u", "b")?;
    keys.push(SqlKey { expr, down: false })?;
    let mut cores = Items::new(alloc);
    cores.push(Core {
        distinct: false,
        items: items(alloc)?,
        from: Some(source(alloc, first, "u")?),
        joins: joins(alloc, second)?,
        condition: None,
        keys,
        most: None,
        skip: None,
    })?;
    let steps = Items::new(alloc);
    let last = Body { cores };
    Ok(Script { steps, last })
}

#[test]
fn references_and_depth_are_found(rt: HostRuntime) -> Result<(), AllocError> {
    let alloc = rt.alloc();
    for (first, second, refs) in [("T", "T", 0), ("DPH", "T", 1), ("DPH", "RPH", 2)] {
        let script = joined(alloc, first, second)?;
        assert_eq!(rt;
            fold_sql(alloc, &mut CountRefs, &script)?,
            refs,
            "{first} {second}"
        );
        assert_eq!(rt;
            fold_sql(alloc, &mut Shape, &script)?,
            2,
            "{first} {second}"
        );
    }
    Ok(())
}
